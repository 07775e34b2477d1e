// What the bench program prints for a line: one of the nine words, a record behind `done`, or `line`.
//
// `spell` turns a reply into bytes. Its contract is one equation with `answer_line` of specs/Words.antt, which spells the
// words of document 01 letter by letter.
//
// Below stand `few`, a list in a value of its own, and the kit's `itoa`, for a record's digits.

#![tactic(auto)]

ghost use Rattle.std.specs.Prelude.{◌≡◌};
ghost use Rattle.words.specs.Words.{word_of, answer_line};

use few::Few;

// The longest line is `done 4294967295` with its newline.
const TEXT_SIZE: usize = 16;

// A line, newline and all.
pub type Text = Few<u8, TEXT_SIZE>;

// What is to be printed: nothing, the word of an answer, `done` with a record, or `line`. An answer stands here as its
// number, since document 01 chooses the nine words by it; nothing is a reply too, which `spell` has a text for.
// No Display: `spell` says the lines, and has the contract.
#[derive(Clone, Copy)]
pub enum Reply {
    Silent,
    Answer(u32),
    Record(u32),
    Line,
}

fn word(number: u32) -> &'static [u8]
    ensures { result.now ≡ word_of number }
{
    match number {
        0 => b"done",
        1 => b"length",
        2 => b"badkey",
        3 => b"damaged",
        4 => b"none",
        5 => b"present",
        6 => b"syncfirst",
        7 => b"full",
        8 => b"spent",
        _ => b"",
    }
}

#[tactic(auto, using(crate::proofs::Digits::record_digits))]
pub fn spell(reply: Reply) -> Text
    ensures { result ≡ answer_line reply }
{
    let mut text = Text::new();
    match reply {
        Reply::Silent => return text,
        Reply::Answer(number) => text.extend_from_slice(word(number)),
        Reply::Record(x) => {
            text.extend_from_slice(b"done ");
            text.extend_from_slice(itoa::Buffer::new().format(x).as_bytes());
        }
        Reply::Line => text.extend_from_slice(b"line"),
    }
    text.push(b'\n');
    text
}
