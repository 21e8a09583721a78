// The words of a line, read one after the other.
ghost use Rattle.std.specs.Prelude.{◌≡◌, nat_eq, option_copied};
ghost use Rattle.std.specs.List.{position};
ghost use Rattle.script_grammar.specs.Words.{words_of};
ghost use Rattle.script_fields.specs.Left.{Takes};

use std::marker::Model;

// Where the first space stands.
fn first_space(text: &[u8]) -> Option<usize>
    ensures { result ≡ position (λ b. nat_eq b 32) text.now }
{
    text.iter().position(|b| *b == b' ')
}

/// The words that are left. Contracts see their list.
#[derive(Drop)]
pub struct Words<'a> {
    rest: Option<&'a [u8]>,
}

impl<'a> Model for Words<'a> {
    ghost use Rattle.std.specs.Prelude.{List, ℕ};
    ghost use Rattle.script_fields.specs.Left.{words_left};

    ghost Value = { List (List ℕ) };

    ghost view = { λ w. words_left w.rest };
}

impl<'a> Words<'a> {
    pub fn new(text: &'a [u8]) -> Words<'a>
        ensures { result ≡ words_of text.now }
    {
        Words { rest: Some(text) }
    }

    /// Takes the next word, if there is one.
    pub fn take(&mut self) -> Option<&'a [u8]>
        ensures { Takes self.old (option_copied result) self.new }
    {
        let text = self.rest?;
        match first_space(text) {
            Some(at) => {
                self.rest = Some(&text[at + 1..]);
                Some(&text[..at])
            }
            None => {
                self.rest = None;
                Some(text)
            }
        }
    }
}
