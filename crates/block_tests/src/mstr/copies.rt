use mstr_block::{CallId, MstrAsk, MstrCall, MstrResult};
use plant_types::{Block, Copied};
use std::alloc::AllocError;

#[test]
fn copies_of_calls_have_their_words(rt: HostRuntime) -> Result<(), AllocError> {
    let alloc = rt.alloc();
    let call = MstrCall {
        id: CallId {
            node: 2,
            path: 1,
            seq: 7,
        },
        ask: MstrAsk::PutGlobal(Block::of(&[7, 8])),
    };
    let copy = call.copied(alloc)?;
    assert!(rt; copy.id == call.id);
    assert!(rt;
        matches!(&copy.ask, MstrAsk::PutGlobal(words) if words.words() == [7, 8].as_slice())
    );
    let result = MstrResult::Good(Block::of(&[42])).copied(alloc)?;
    assert!(rt; matches!(&result, MstrResult::Good(words) if words.words() == [42].as_slice()));
    Ok(())
}
