// A text, piece by piece: lines, words, or what stands between commas.
ghost use Rattle.std.specs.Prelude.{◌≡◌, ◌==◌, ◌<◌, ◌++◌, ◌+◌, [], length, eqb};
ghost use Rattle.std.specs.Prelude.{IfSome, IfNone, option_map, option_to_list, is_none};
ghost use Rattle.std.specs.List.{slice_split};
ghost use Rattle.script.specs.Pieces.{behind, four_of, one_of, three_of, two_of, up_to};

use std::marker::Model;

// The text up to the first byte of this kind and the text behind it, if there is one.
fn cut_at(text: &[u8], byte: u8) -> (&[u8], Option<&[u8]>)
    ensures front { result.0.now ≡ up_to byte text.now }
    ensures back { option_map (λ s. s.now) result.1 ≡ behind byte text.now }
    ensures shorter { IfSome result.1 (λ s. length s.now < length text.now) }
{
    for (index, b) in text.iter().enumerate() {
        if *b == byte {
            return (&text[..index], Some(&text[index + 1..]));
        }
    }
    (text, None)
}

// How many pieces a text has.
fn count_of(text: &[u8], byte: u8) -> usize
    ensures { result ≡ length (slice_split (λ b. eqb b byte) text.now) }
{
    let mut count = 1;
    for b in text {
        if *b == byte {
            count += 1;
        }
    }
    count
}

// The pieces of a text that are still to come: what stands before, between and behind the bytes of
// one kind.
#[derive(Drop)]
pub(crate) struct Pieces<'a> {
    byte: u8,
    rest: Option<&'a [u8]>,
}

impl<'a> Model for Pieces<'a> {
    ghost use Rattle.std.specs.Prelude.{List, ℕ, option_map};
    ghost use Rattle.script.specs.Pieces.{pieces_of};

    ghost Value = { List (List ℕ) };

    ghost view = { λ p. pieces_of p.byte (option_map (λ s. s.now) p.rest) };
}

impl<'a> Pieces<'a> {
    pub(crate) fn new(text: &'a [u8], byte: u8) -> Self
        ensures { result ≡ slice_split (λ b. eqb b byte) text.now }
    {
        Pieces {
            byte,
            rest: Some(text),
        }
    }

    // The next piece.
    pub(crate) fn next(&mut self) -> Option<&'a [u8]>
        ensures pieces { self.old ≡ option_to_list (option_map (λ s. s.now) result) ++ self.new }
        ensures none { IfNone result (self.new ≡ []) }
    {
        let rest = self.rest?;
        let (front, behind) = cut_at(rest, self.byte);
        self.rest = behind;
        Some(front)
    }

    pub(crate) fn is_empty(&self) -> bool
        ensures { result ≡ (length self.now == 0) }
    {
        self.rest.is_none()
    }

    // How many pieces are still to come.
    pub(crate) fn len(&self) -> usize
        ensures { result ≡ length self.now }
    {
        match self.rest {
            Some(text) => count_of(text, self.byte),
            None => 0,
        }
    }

    // The piece, where there is exactly one.
    pub(crate) fn one(&mut self) -> Option<&'a [u8]>
        ensures { option_map (λ s. s.now) result ≡ one_of self.old }
    {
        let first = self.next()?;
        if self.is_empty() { Some(first) } else { None }
    }

    // The pieces, where there are exactly two.
    pub(crate) fn two(&mut self) -> Option<(&'a [u8], &'a [u8])>
        ensures { option_map (λ p. (p.0.now, p.1.now)) result ≡ two_of self.old }
    {
        let first = self.next()?;
        let second = self.one()?;
        Some((first, second))
    }

    // The pieces, where there are exactly three.
    pub(crate) fn three(&mut self) -> Option<(&'a [u8], &'a [u8], &'a [u8])>
        ensures { option_map (λ p. (p.0.now, p.1.now, p.2.now)) result ≡ three_of self.old }
    {
        let first = self.next()?;
        let (second, third) = self.two()?;
        Some((first, second, third))
    }

    // The pieces, where there are exactly four.
    pub(crate) fn four(&mut self) -> Option<(&'a [u8], &'a [u8], &'a [u8], &'a [u8])>
        ensures { option_map (λ p. (p.0.now, p.1.now, p.2.now, p.3.now)) result
            ≡ four_of self.old }
    {
        let first = self.next()?;
        let (second, third, fourth) = self.three()?;
        Some((first, second, third, fourth))
    }
}
