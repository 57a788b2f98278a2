//! What lines ask for.

use geo_core::Rect;
use names_lists::Name;
use script_lines::{Command, LineFault, VERBS, Verb, read_line};
use std::alloc::Global;
use std::test::Fail;

/// A line, and what it asks for. A rectangle is told by its four numbers.
enum Asked {
    /// Nothing.
    Nothing(&'static [u8]),
    Refused(&'static [u8], LineFault),
    /// A command of one word.
    Alone(&'static [u8], Verb),
    /// A command with one name, id or text.
    One(&'static [u8], Verb, &'static [u8]),
    /// A command with two names.
    Two(&'static [u8], Verb, &'static [u8], &'static [u8]),
    Area(&'static [u8], Verb, &'static [u8], [i64; 4]),
    Place(&'static [u8], &'static [u8], &'static [u8], [i64; 6]),
    Array(&'static [u8], &'static [u8], [i64; 6]),
    Move(&'static [u8], &'static [u8], i64, i64),
    Label(&'static [u8], &'static [u8], [i64; 4], i64, &'static [u8]),
    Generate(&'static [u8], i64),
}

/// 64 bytes, the greatest length of a name and of an id.
const LONG: &[u8] = b"load 0123456789abcdefghijklmnopqrstuvwxyzABCDEFGHIJKLMNOPQRSTUVWXYZ_-";

const QUESTIONS: &[Asked] = &[
    Asked::Nothing(b""),
    Asked::Nothing(b"  \t "),
    Asked::Nothing(b"# load inv"),
    Asked::Nothing(b"#load"),
    // A blank before the `#` makes it a word.
    Asked::Refused(b" # load inv", LineFault::BadWord),
    // Each command, well formed.
    Asked::One(b"tech nm", Verb::Tech, b"nm"),
    Asked::One(b"load inv", Verb::Load, b"inv"),
    Asked::One(b"new Cell_2-b", Verb::New, b"Cell_2-b"),
    Asked::One(b"edit inv", Verb::Edit, b"inv"),
    Asked::Area(b"paint poly 0 2 6 4", Verb::Paint, b"poly", [0, 2, 6, 4]),
    Asked::Area(
        b"erase diff -3 -4 0 007",
        Verb::Erase,
        b"diff",
        [-3, -4, 0, 7],
    ),
    Asked::Place(
        b"place inv i.1! 0 -1 12 1 0 -34",
        b"inv",
        b"i.1!",
        [0, -1, 12, 1, 0, -34],
    ),
    Asked::Array(b"array i1 0 7 20 3 -1 40", b"i1", [0, 7, 20, 3, -1, 40]),
    Asked::Move(b"move i1 -5 9", b"i1", -5, 9),
    Asked::One(b"delete i1", Verb::Delete, b"i1"),
    Asked::Label(b"label poly 0 2 0 4 7 in", b"poly", [0, 2, 0, 4], 7, b"in"),
    Asked::One(b"unlabel GND!", Verb::Unlabel, b"GND!"),
    Asked::Alone(b"undo", Verb::Undo),
    Asked::Alone(b" redo\t", Verb::Redo),
    Asked::One(b"save inv", Verb::Save, b"inv"),
    Asked::One(b"nodes inv", Verb::Nodes, b"inv"),
    Asked::One(b"squares inv", Verb::Squares, b"inv"),
    Asked::Two(b"drc inv mosis", Verb::Drc, b"inv", b"mosis"),
    Asked::One(b"cif inv", Verb::Cif, b"inv"),
    Asked::One(b"cifstat mask", Verb::Cifstat, b"mask"),
    Asked::One(b"extract inv", Verb::Extract, b"inv"),
    Asked::One(b"flat inv", Verb::Flat, b"inv"),
    Asked::One(b"sim inv", Verb::Sim, b"inv"),
    Asked::Two(b"vectors inv clocks", Verb::Vectors, b"inv", b"clocks"),
    Asked::Two(b"grade inv clocks", Verb::Grade, b"inv", b"clocks"),
    Asked::Generate(b"generate 20", 20),
    Asked::One(b"ext2sim inv", Verb::Ext2sim, b"inv"),
    Asked::Two(b"simrun inv clocks", Verb::Simrun, b"inv", b"clocks"),
    // Blanks and tabs between words and at both ends.
    Asked::One(b"\tload \t inv\t ", Verb::Load, b"inv"),
    Asked::Area(b" erase\tm1  1\t2 3 4 ", Verb::Erase, b"m1", [1, 2, 3, 4]),
    // Unknown first words come before all else.
    Asked::Refused(b"Load inv", LineFault::BadWord),
    Asked::Refused(b"loa inv", LineFault::BadWord),
    Asked::Refused(b"loads inv", LineFault::BadWord),
    Asked::Refused(b"draw 99999999999 /", LineFault::BadWord),
    Asked::Refused(b"load\r inv", LineFault::BadWord),
    // Too few words, and too many.
    Asked::Refused(b"tech", LineFault::BadForm),
    Asked::Refused(b"load inv inv", LineFault::BadForm),
    Asked::Refused(b"vectors inv", LineFault::BadForm),
    Asked::Refused(b"grade inv", LineFault::BadForm),
    Asked::Refused(b"grade inv clocks 1", LineFault::BadForm),
    Asked::Refused(b"simrun inv f g", LineFault::BadForm),
    Asked::Refused(b"cif", LineFault::BadForm),
    Asked::Refused(b"cifstat mask inv", LineFault::BadForm),
    Asked::Refused(b"paint poly 0 2 6", LineFault::BadForm),
    Asked::Refused(b"paint poly 0 2 6 4 8", LineFault::BadForm),
    Asked::Refused(b"paint", LineFault::BadForm),
    Asked::Refused(b"place inv", LineFault::BadForm),
    Asked::Refused(b"place inv i 1 0 0 0 1", LineFault::BadForm),
    Asked::Refused(b"array i 0 1 2 3 4 5 6", LineFault::BadForm),
    Asked::Refused(b"move i 1", LineFault::BadForm),
    Asked::Refused(b"generate", LineFault::BadForm),
    Asked::Refused(b"generate 1 1", LineFault::BadForm),
    Asked::Refused(b"delete i j", LineFault::BadForm),
    Asked::Refused(b"undo inv", LineFault::BadForm),
    Asked::Refused(b"redo 1", LineFault::BadForm),
    Asked::Refused(b"unlabel", LineFault::BadForm),
    Asked::Refused(b"unlabel \t ", LineFault::BadForm),
    Asked::Refused(b"label", LineFault::BadForm),
    Asked::Refused(b"label poly 0 0 1", LineFault::BadForm),
    Asked::Refused(b"label poly 0 0 1 1 0", LineFault::BadForm),
    Asked::Refused(b"label poly 0 0 1 1 0 ", LineFault::BadForm),
    // Words that are not of their forms.
    Asked::One(
        LONG,
        Verb::Load,
        b"0123456789abcdefghijklmnopqrstuvwxyzABCDEFGHIJKLMNOPQRSTUVWXYZ_-",
    ),
    Asked::Refused(
        b"load 0123456789abcdefghijklmnopqrstuvwxyzABCDEFGHIJKLMNOPQRSTUVWXYZ_-0",
        LineFault::BadForm,
    ),
    Asked::Refused(b"load a.b", LineFault::BadForm),
    Asked::Refused(b"load inv\r", LineFault::BadForm),
    Asked::Refused(b"vectors inv a/b", LineFault::BadForm),
    Asked::Refused(b"delete a/b", LineFault::BadForm),
    Asked::Refused(b"delete a[0]", LineFault::BadForm),
    Asked::Refused(b"delete a,b", LineFault::BadForm),
    Asked::Refused(b"delete \"a\"", LineFault::BadForm),
    Asked::Refused(b"delete \x7f", LineFault::BadForm),
    Asked::One(b"delete ~(!)*#", Verb::Delete, b"~(!)*#"),
    Asked::Refused(b"place a.b i 1 0 0 0 1 0", LineFault::BadForm),
    // The name of a layer may be any word.
    Asked::Area(
        b"paint */[],\" 0 0 1 1",
        Verb::Paint,
        b"*/[],\"",
        [0, 0, 1, 1],
    ),
    Asked::Label(b"label space 0 0 0 0 0 x", b"space", [0, 0, 0, 0], 0, b"x"),
    // Numbers have a minus or none, and digits.
    Asked::Refused(b"move i 1 +2", LineFault::BadForm),
    Asked::Refused(b"move i 1 --2", LineFault::BadForm),
    Asked::Refused(b"move i 1 -", LineFault::BadForm),
    Asked::Refused(b"move i 1 2.0", LineFault::BadForm),
    Asked::Refused(b"move i 0x1 2", LineFault::BadForm),
    // Numbers at the edges of their ranges.
    Asked::Move(
        b"move i -2147483648 2147483647",
        b"i",
        -2_147_483_648,
        2_147_483_647,
    ),
    Asked::Refused(b"move i -2147483649 0", LineFault::NumberRange),
    Asked::Refused(b"move i 0 2147483648", LineFault::NumberRange),
    Asked::Refused(
        b"paint poly 0 0 9223372036854775808 1",
        LineFault::NumberRange,
    ),
    Asked::Refused(
        b"array i 0 1 -99999999999999999999999999999999999999999999999999 0 1 2",
        LineFault::NumberRange,
    ),
    Asked::Move(
        b"move i -0000000000000000000000000000000000000000000001 0",
        b"i",
        -1,
        0,
    ),
    Asked::Refused(b"label poly 0 0 1 1 -1 in", LineFault::NumberRange),
    Asked::Label(b"label poly 0 0 1 1 0 in", b"poly", [0, 0, 1, 1], 0, b"in"),
    Asked::Label(b"label poly 0 0 1 1 8 in", b"poly", [0, 0, 1, 1], 8, b"in"),
    Asked::Refused(b"label poly 0 0 1 1 9 in", LineFault::NumberRange),
    Asked::Refused(b"generate 0", LineFault::NumberRange),
    Asked::Refused(b"generate -1", LineFault::NumberRange),
    Asked::Generate(b"generate 1", 1),
    Asked::Generate(b"generate 500", 500),
    Asked::Refused(b"generate 501", LineFault::NumberRange),
    // A word that is not of its form comes before a number that is out of its range, wherever they stand.
    Asked::Refused(b"paint poly 99999999999 0 1 x", LineFault::BadForm),
    Asked::Refused(b"paint poly 99999999999 0 1", LineFault::BadForm),
    Asked::Refused(b"move i 99999999999 0 0", LineFault::BadForm),
    Asked::Refused(b"generate 501 x", LineFault::BadForm),
    Asked::Refused(b"label poly 0 0 99999999999 1 9 \x7f", LineFault::BadForm),
    Asked::Refused(b"label poly 0 0 99999999999 1 9 a\tb", LineFault::BadForm),
    Asked::Refused(b"label poly 0 0 99999999999 1 9", LineFault::BadForm),
    Asked::Refused(b"label poly 0 0 99999999999 1 9 in", LineFault::NumberRange),
    // A text is the rest of the line, without the blanks at its ends.
    Asked::Label(
        b"label  m1\t0 0 4 4 5 \t two  words \t",
        b"m1",
        [0, 0, 4, 4],
        5,
        b"two  words",
    ),
    Asked::One(b"unlabel  a b ", Verb::Unlabel, b"a b"),
    Asked::One(b"unlabel # 1", Verb::Unlabel, b"# 1"),
    Asked::Refused(b"unlabel a\tb", LineFault::BadForm),
];

fn same_rect(area: &Rect, want: &[i64; 4]) -> bool {
    [area.xlo, area.ylo, area.xhi, area.yhi] == *want
}

/// The only word of a command that has one.
fn only_word(command: &Command) -> Option<(Verb, &Name)> {
    match command {
        Command::Tech(name) => Some((Verb::Tech, name)),
        Command::Load(name) => Some((Verb::Load, name)),
        Command::New(name) => Some((Verb::New, name)),
        Command::Edit(name) => Some((Verb::Edit, name)),
        Command::Delete(name) => Some((Verb::Delete, name)),
        Command::Unlabel(name) => Some((Verb::Unlabel, name)),
        Command::Save(name) => Some((Verb::Save, name)),
        Command::Nodes(name) => Some((Verb::Nodes, name)),
        Command::Squares(name) => Some((Verb::Squares, name)),
        Command::Cif(name) => Some((Verb::Cif, name)),
        Command::Cifstat(name) => Some((Verb::Cifstat, name)),
        Command::Extract(name) => Some((Verb::Extract, name)),
        Command::Flat(name) => Some((Verb::Flat, name)),
        Command::Sim(name) => Some((Verb::Sim, name)),
        Command::Ext2sim(name) => Some((Verb::Ext2sim, name)),
        _ => None,
    }
}

fn is_alone(command: &Command, verb: Verb) -> bool {
    match command {
        Command::Undo => verb == Verb::Undo,
        Command::Redo => verb == Verb::Redo,
        _ => false,
    }
}

fn is_one(command: &Command, verb: Verb, want: &[u8]) -> bool {
    match only_word(command) {
        Some((found, name)) => found == verb && name.bytes() == want,
        None => false,
    }
}

fn is_two(command: &Command, verb: Verb, cell: &[u8], file: &[u8]) -> bool {
    match command {
        Command::Vectors(c, f) => {
            verb == Verb::Vectors && c.bytes() == cell && f.bytes() == file
        }
        Command::Grade(c, f) => verb == Verb::Grade && c.bytes() == cell && f.bytes() == file,
        Command::Simrun(c, f) => verb == Verb::Simrun && c.bytes() == cell && f.bytes() == file,
        Command::Drc(c, f) => verb == Verb::Drc && c.bytes() == cell && f.bytes() == file,
        _ => false,
    }
}

fn is_area(command: &Command, verb: Verb, layer: &[u8], want: &[i64; 4]) -> bool {
    match command {
        Command::Paint(name, area) => {
            verb == Verb::Paint && name.bytes() == layer && same_rect(area, want)
        }
        Command::Erase(name, area) => {
            verb == Verb::Erase && name.bytes() == layer && same_rect(area, want)
        }
        _ => false,
    }
}

fn is_place(command: &Command, cell: &[u8], id: &[u8], want: &[i64; 6]) -> bool {
    match command {
        Command::Place(c, i, six) => c.bytes() == cell && i.bytes() == id && *six == *want,
        _ => false,
    }
}

fn is_array(command: &Command, id: &[u8], want: &[i64; 6]) -> bool {
    match command {
        Command::Array(name, six) => name.bytes() == id && *six == *want,
        _ => false,
    }
}

fn is_move(command: &Command, id: &[u8], dx: i64, dy: i64) -> bool {
    match command {
        Command::Move(name, x, y) => name.bytes() == id && *x == dx && *y == dy,
        _ => false,
    }
}

fn is_label(command: &Command, layer: &[u8], want: &[i64; 4], at: i64, text: &[u8]) -> bool {
    match command {
        Command::Label(name, area, position, found) => {
            name.bytes() == layer
                && same_rect(area, want)
                && *position == at
                && found.bytes() == text
        }
        _ => false,
    }
}

fn is_generate(command: &Command, count: i64) -> bool {
    match command {
        Command::Generate(found) => *found == count,
        _ => false,
    }
}

fn line_of(asked: &Asked) -> &'static [u8] {
    match asked {
        Asked::Nothing(line) => line,
        Asked::Refused(line, _) => line,
        Asked::Alone(line, _) => line,
        Asked::One(line, _, _) => line,
        Asked::Two(line, _, _, _) => line,
        Asked::Area(line, _, _, _) => line,
        Asked::Place(line, _, _, _) => line,
        Asked::Array(line, _, _) => line,
        Asked::Move(line, _, _, _) => line,
        Asked::Label(line, _, _, _, _) => line,
        Asked::Generate(line, _) => line,
    }
}

fn is_command(command: &Command, asked: &Asked) -> bool {
    match asked {
        Asked::Nothing(_) | Asked::Refused(_, _) => false,
        Asked::Alone(_, verb) => is_alone(command, *verb),
        Asked::One(_, verb, name) => is_one(command, *verb, name),
        Asked::Two(_, verb, cell, file) => is_two(command, *verb, cell, file),
        Asked::Area(_, verb, layer, area) => is_area(command, *verb, layer, area),
        Asked::Place(_, cell, id, six) => is_place(command, cell, id, six),
        Asked::Array(_, id, six) => is_array(command, id, six),
        Asked::Move(_, id, dx, dy) => is_move(command, id, *dx, *dy),
        Asked::Label(_, layer, area, position, text) => {
            is_label(command, layer, area, *position, text)
        }
        Asked::Generate(_, count) => is_generate(command, *count),
    }
}

fn is_answered(alloc: Global, asked: &Asked) -> bool {
    match read_line(alloc, line_of(asked)) {
        Ok(Some(command)) => is_command(&command, asked),
        Ok(None) => matches!(asked, Asked::Nothing(_)),
        Err(fault) => match asked {
            Asked::Refused(_, want) => fault == *want,
            _ => false,
        },
    }
}

#[test]
fn lines_ask_for_commands(rt: HostRuntime) -> Result<(), Fail> {
    for (place, asked) in QUESTIONS.iter().enumerate() {
        assert!(rt; is_answered(rt.alloc(), asked), "question {place}");
    }
    Ok(())
}

#[test]
fn each_verb_has_a_word_of_its_own(rt: HostRuntime) -> Result<(), Fail> {
    for verb in VERBS {
        assert_eq!(rt; Verb::of(verb.word()), Some(verb));
    }
    Ok(())
}

/// The command that takes labels away, with this text, or the fault of the line.
fn is_unlabel(alloc: Global, line: &[u8], text: &[u8]) -> Result<bool, LineFault> {
    match read_line(alloc, line)? {
        Some(command) => Ok(is_one(&command, Verb::Unlabel, text)),
        None => Ok(false),
    }
}

#[test]
fn a_text_has_up_to_255_bytes(rt: HostRuntime) -> Result<(), Fail> {
    let mut line = b"unlabel ".to_vec(rt.alloc())?;
    let mut text = Vec::new(rt.alloc());
    for _ in 0..255 {
        text.push(b'x')?;
    }
    line.extend_from_slice(&text)?;
    assert!(rt; is_unlabel(rt.alloc(), &line, &text)?);
    line.push(b'x')?;
    assert_eq!(rt;
        is_unlabel(rt.alloc(), &line, &text),
        Err(LineFault::BadForm)
    );
    Ok(())
}
