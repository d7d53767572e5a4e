// The line that the program prints: document 01, 'The program'.
#![tactic(auto)]

ghost use Rattle.std.specs.Prelude.{[], ◌∷◌, ◌++◌};
ghost use Rattle.convention.specs.Answers.{BuildingAnswer, JudgingAnswer};
ghost use Rattle.convention.specs.Program.{decimal, further, kind_fields, verdict_fields, refused_line, line};
ghost use Rattle.line.specs.Appended.{FieldRoom, Appended, Room, Grown};

use itoa::Buffer;

// A text on its way: the first `len` bytes of `out`. Each method asks for room for its own text. `write!` and `Display` are not the
// form: they promise the text where they answer `Ok`, and never promise `Ok`, while the functions that write a line cannot fail.
#[derive(Drop)]
struct Text<'o> {
    out: &'o mut [u8],
    len: usize,
}

impl Text<'_> {
    // One byte.
    fn byte(&mut self, byte: u8)
        requires { Room self.old (byte ∷ []) }
        ensures { Grown self.old (byte ∷ []) self.new }
    {
        self.out[self.len] = byte;
        self.len += 1;
    }

    // A word, byte by byte.
    fn word(&mut self, word: &[u8])
        requires { Room self.old word.now }
        ensures { Grown self.old word.now self.new }
    {
        for &byte in word {
            self.byte(byte);
        }
    }

    // A number in decimal.
    #[tactic(auto, using(crate::proofs::Digits::decimal_printed))]
    fn number(&mut self, n: usize)
        requires { Room self.old (decimal n) }
        ensures { Grown self.old (decimal n) self.new }
    {
        let mut digits = Buffer::new();
        self.word(digits.format(n).as_bytes());
    }

    // A number that is no line's first field: after a space.
    #[tactic(auto, using(crate::proofs::Appending::fields))]
    fn further(&mut self, n: usize)
        requires { Room self.old (further (decimal n)) }
        ensures { Grown self.old (further (decimal n)) self.new }
    {
        self.byte(b' ');
        self.number(n);
    }

    // The kinds of a list, each after a space.
    fn kinds(&mut self, list: &[u8])
        requires { Room self.old (kind_fields list.now) }
        ensures { Grown self.old (kind_fields list.now) self.new }
    {
        for &kind in list {
            self.further(kind as usize);
        }
    }

    // `fault`, the fault number, the length and the kinds of the list.
    #[tactic(auto, using(crate::proofs::Appending::fields), unfolding(convention::specs::Program::verdict_fields))]
    fn fault(&mut self, fault: u8, n: usize, list: &[u8])
        requires { Room self.old (verdict_fields (JudgingAnswer.Fault fault n) list.now) }
        ensures { Grown self.old (verdict_fields (JudgingAnswer.Fault fault n) list.now) self.new }
    {
        self.word(b" fault");
        self.further(fault as usize);
        self.further(n);
        self.kinds(list);
    }

    // What the line of a table that was built begins with: states and kinds. The table's length is no part of it.
    #[tactic(auto, using(crate::proofs::Appending::fields))]
    fn built(&mut self, states: u16, kinds: u8)
        requires { Room self.old (decimal states ++ further (decimal kinds)) }
        ensures { Grown self.old (decimal states ++ further (decimal kinds)) self.new }
    {
        self.number(states as usize);
        self.further(kinds as usize);
    }
}

// Writes the line of a refusal: `refused` and the number. Answers how long it is. It takes a number and no `Refusal`, since its promise
// is for every number (`refused_line`).
#[tactic(auto, using(crate::proofs::Appending::fields), unfolding(convention::specs::Program::refused_line))]
pub fn write_refused(number: u8, out: &mut [u8]) -> usize
    requires { FieldRoom out.old 0 (refused_line number) }
    ensures { Appended out.old 0 (refused_line number) result out.new }
{
    let mut text = Text { out, len: 0 };
    text.word(b"refused");
    text.further(number as usize);
    text.byte(b'\n');
    text.len
}

// Writes the line of a table whose verdict is clean: states, kinds, `clean`. Answers how long it is.
#[tactic(auto, using(crate::proofs::Appending::fields), unfolding(convention::specs::Program::line, convention::specs::Program::verdict_fields))]
pub fn write_clean(states: u16, kinds: u8, out: &mut [u8]) -> usize
    requires { FieldRoom out.old 0 (line (BuildingAnswer.Built states 0) kinds JudgingAnswer.Clean []) }
    ensures { Appended out.old 0 (line (BuildingAnswer.Built states 0) kinds JudgingAnswer.Clean []) result out.new }
{
    let mut clean = Text { out, len: 0 };
    clean.built(states, kinds);
    clean.word(b" clean");
    clean.byte(b'\n');
    clean.len
}

// Writes the line of a table with a faulty list of length `n`: states, kinds, `fault`, the fault number, the length and the kinds of
// the list. Answers how long it is. The fault is a number here, of which the promise is for every one (`verdict_fields`).
#[tactic(auto, using(crate::proofs::Appending::fields), unfolding(convention::specs::Program::line))]
pub fn write_faulty(
    states: u16,
    kinds: u8,
    fault: u8,
    n: usize,
    list: &[u8],
    out: &mut [u8],
) -> usize
    requires { FieldRoom out.old 0 (line (BuildingAnswer.Built states 0) kinds (JudgingAnswer.Fault fault n) list.now) }
    ensures { Appended out.old 0 (line (BuildingAnswer.Built states 0) kinds (JudgingAnswer.Fault fault n) list.now) result out.new }
{
    let mut faulty = Text { out, len: 0 };
    faulty.built(states, kinds);
    faulty.fault(fault, n, list);
    faulty.byte(b'\n');
    faulty.len
}

// Writes the line of a table that was built and not judged: states, kinds. Answers how long it is. (The program has no such table:
// `line` of crates/convention gives the text.)
#[tactic(auto, using(crate::proofs::Appending::fields), unfolding(convention::specs::Program::line, convention::specs::Program::verdict_fields))]
pub fn write_unjudged(states: u16, kinds: u8, out: &mut [u8]) -> usize
    requires { FieldRoom out.old 0 (line (BuildingAnswer.Built states 0) kinds (JudgingAnswer.Refused 0) []) }
    ensures { Appended out.old 0 (line (BuildingAnswer.Built states 0) kinds (JudgingAnswer.Refused 0) []) result out.new }
{
    let mut unjudged = Text { out, len: 0 };
    unjudged.built(states, kinds);
    unjudged.byte(b'\n');
    unjudged.len
}
