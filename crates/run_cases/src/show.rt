// Printing words, numbers, lists and answers. A write that fails is passed over.
use crate::labels::Label;
use model::{NetworkSize, Refusal};
use std::io::Write;

// What stands in a line of the output.
pub(crate) trait Show {
    fn show<W: Write>(self, output: &mut W);
}

pub(crate) fn word(output: &mut impl Write, text: &[u8]) {
    let _ = output.write_all(text);
}

pub(crate) fn line_end(output: &mut impl Write) {
    word(output, b"\n");
}

// A number behind a space.
impl Show for usize {
    fn show<W: Write>(self, output: &mut W) {
        let _ = write!(output, " {self}");
    }
}

impl Show for u32 {
    fn show<W: Write>(self, output: &mut W) {
        (self as usize).show(output);
    }
}

// The numbers of nodes and edges.
impl Show for NetworkSize {
    fn show<W: Write>(self, output: &mut W) {
        self.nodes.show(output);
        self.edges.show(output);
    }
}

// Metres, or a word where there are none.
#[derive(Clone, Copy)]
pub(crate) struct MetresOr(pub Option<u32>, pub &'static str);

impl Show for MetresOr {
    fn show<W: Write>(self, output: &mut W) {
        match self {
            MetresOr(Some(metres), _) => metres.show(output),
            MetresOr(None, text) => word(output, text.as_bytes()),
        }
    }
}

// What a check answers when it accepts.
impl Show for () {
    fn show<W: Write>(self, output: &mut W) {
        word(output, b" accepted");
    }
}

// The number and the place of a refusal.
impl Show for Refusal {
    fn show<W: Write>(self, output: &mut W) {
        word(output, b" refused");
        self.fault.number().show(output);
        self.place.show(output);
    }
}

impl<T: Show> Show for Result<T, Refusal> {
    fn show<W: Write>(self, output: &mut W) {
        match self {
            Ok(value) => value.show(output),
            Err(refusal) => refusal.show(output),
        }
    }
}

// An answer, and the line end.
pub(crate) fn answer(output: &mut impl Write, shown: impl Show) {
    shown.show(output);
    line_end(output);
}

// A list, behind a colon, and the line end.
pub(crate) fn entries(output: &mut impl Write, numbers: &[u32]) {
    word(output, b":");
    for number in numbers {
        number.show(output);
    }
    line_end(output);
}

// A list behind its name.
pub(crate) fn named(output: &mut impl Write, label: Label, numbers: &[u32]) {
    word(output, label.name().as_bytes());
    entries(output, numbers);
}

// An answer, and the answer list that goes with it.
pub(crate) fn answer_and_list(output: &mut impl Write, shown: impl Show, numbers: &[u32]) {
    shown.show(output);
    entries(output, numbers);
}

// The same behind the name of the list.
pub(crate) fn named_answer(
    output: &mut impl Write,
    label: Label,
    shown: impl Show,
    numbers: &[u32],
) {
    word(output, label.name().as_bytes());
    answer_and_list(output, shown, numbers);
}
