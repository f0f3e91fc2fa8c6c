//! The global words of the members of a ring.
ghost use Rattle.std.specs.Prelude.{◌≡◌};
ghost use Rattle.std.specs.FinMap.{contains_key};

use global_data::GlobalBook;
use std::alloc::AllocError;

/// Whether a node is a member.
fn is_member(book: &GlobalBook, node: u8) -> bool
    ensures { result ≡ contains_key book.now node }
{
    book.get(node).is_some()
}

#[test]
fn words_are_heard_at_the_pass(rt: HostRuntime) -> Result<(), AllocError> {
    let mut book = GlobalBook::new(rt.alloc(), &[2, 5])?;
    assert!(rt; book.get(3).is_none());
    assert!(rt; is_member(&book, 2));
    book.put(2, &[7, 8]);
    assert!(rt; book.get(2).is_some_and(|words| words.is_empty()));
    assert!(rt; is_member(&book, 2));
    book.heard(2);
    assert!(rt; book.get(2).is_some_and(|words| words == [7, 8].as_slice()));
    assert!(rt; is_member(&book, 2));
    book.put(2, &[]);
    assert!(rt; book.get(2).is_some_and(|words| words == [7, 8].as_slice()));
    assert!(rt; book.get(5).is_some_and(|words| words.is_empty()));
    Ok(())
}
