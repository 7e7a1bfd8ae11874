//! Texts, cut at a byte.

ghost use Rattle.std.specs.Prelude.{◌≡◌, ◌≤◌, ◌↔◌, ◌==◌, IsTrue, IfSome, IfNone, length};
ghost use Rattle.std.specs.List.{position_or_len};
ghost use Rattle.report_words.specs.Cuts.{Lacks, CutFirst, CutLast};

/// The two parts of a text around a byte.
#[derive(Clone, Copy)]
pub struct Parts<'a> {
    pub before: &'a [u8],
    pub behind: &'a [u8],
}

/// How many bytes stand before the first mark, or all where there is none.
fn place_of(text: &[u8], mark: u8) -> usize
    ensures value { result ≡ position_or_len (λ b. b == mark) text.now }
    ensures within { result ≤ length text.now }
{
    text.iter().take_while(|b| **b != mark).count()
}

/// The parts of a text around its first mark; None where it has none.
pub fn cut_first(text: &[u8], mark: u8) -> Option<Parts<'_>>
    ensures some { IfSome result (λ p. CutFirst mark text.now p.before.now p.behind.now) }
    ensures none { IfNone result (Lacks mark text.now) }
{
    let place = place_of(text, mark);
    if place < text.len() {
        Some(Parts {
            before: &text[..place],
            behind: &text[place + 1..],
        })
    } else {
        None
    }
}

/// Whether a mark does not stand in a text.
pub fn lacks(text: &[u8], mark: u8) -> bool
    ensures { IsTrue result ↔ Lacks mark text.now }
{
    place_of(text, mark) == text.len()
}

/// The parts of a text around its last mark; None where it has none.
pub fn cut_last(text: &[u8], mark: u8) -> Option<Parts<'_>>
    ensures some { IfSome result (λ p. CutLast mark text.now p.before.now p.behind.now) }
    ensures none { IfNone result (Lacks mark text.now) }
{
    let mut place = text.len();
    'bytes: while place > 0 {
        place -= 1;
        if text[place] == mark {
            return Some(Parts {
                before: &text[..place],
                behind: &text[place + 1..],
            });
        }
    }
    None
}
