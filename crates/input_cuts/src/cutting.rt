//! Where an input is cut into a plant file and what stands after it.
ghost use Rattle.std.specs.Prelude.{◌≡◌, ◌≤◌, ◌+◌, ◌↔◌, IsTrue, drop, length, take};
ghost use Rattle.input_cuts.specs.Cut.{CanCut, HasMark, IsCutAfter, IsCutBefore, StartsLine};

fn starts_line(front: &[u8]) -> bool
    ensures { IsTrue result ↔ StartsLine front.now }
{
    match front {
        [] => true,
        [.., last] => *last == b'\n',
    }
}

fn has_mark(mark: &[u8], back: &[u8]) -> bool
    ensures { IsTrue result ↔ HasMark mark.now back.now }
{
    match back.strip_prefix(mark) {
        Some([]) => true,
        Some([first, ..]) => *first == b'\n',
        None => false,
    }
}

/// The place of the first line of an input that is exactly a mark.
fn mark_place(mark: &[u8], input: &[u8]) -> usize
    ensures within { result ≤ length input.now }
    ensures cut { IsCutBefore mark.now input.now (take result input.now) (drop result input.now) }
{
    for at in 0..input.len() {
        if starts_line(&input[..at]) && has_mark(mark, &input[at..]) {
            return at;
        }
    }
    input.len()
}

/// What stands after a first line that is a mark.
fn after_mark<'a>(mark: &[u8], back: &'a [u8]) -> &'a [u8]
    ensures { result.now ≡ drop (length mark.now + 1) back.now }
{
    if back.len() > mark.len() {
        &back[mark.len() + 1..]
    } else {
        &[]
    }
}

/// The plant file of an input, and what begins with the first line after it that is exactly a mark,
/// also where that line is part of a text. Without such a line the input is a plant file alone. This
/// project's own.
pub fn cut_before<'a>(mark: &[u8], input: &'a [u8]) -> (&'a [u8], &'a [u8])
    ensures { IsCutBefore mark.now input.now result.0.now result.1.now }
{
    input.split_at(mark_place(mark, input))
}

/// The plant file of an input, and what stands after the first line that is exactly a mark. Nothing
/// stands there where there is no such line, or where it has no line feed. This project's own.
pub fn cut_after<'a>(mark: &[u8], input: &'a [u8]) -> (&'a [u8], &'a [u8])
    ensures { IsCutAfter mark.now input.now result.0.now result.1.now }
{
    let (file, back) = cut_before(mark, input);
    (file, after_mark(mark, back))
}
