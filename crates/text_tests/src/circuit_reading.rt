// Texts that are read, and written again in version 2, or refused at a line.
use ext_reading::{ExtReadFault, LONGEST_READ_TEXT, read_ext};
use ext_text::write_ext;
use names_lists::Name;
use std::alloc::Global;
use std::test::Fail;

// The text that is written of the record that a text says, or the line and the fault where it is refused.
type Want = Result<&'static [u8], (u32, ExtReadFault)>;

// Texts of both versions that are read.
const READ: &[(&[u8], &[u8])] = &[
    // Any order of the header, words that are read over, names without quotes, and a path before its element.
    (
        b"scale 3 2\nresistclasses 30\nversion 1\ntech nm\nnode a 99 5 -1 2 metal 4 10\nequiv a b\nmerge u/x b -7 -1 -2\nuse c u 0 -1 5 1 0 0",
        b"tech nm\ntimestamp 0\nversion 2\nstyle nm\nscale 1 1 1\nresistclasses 30\nuse c u 0 -1 5 1 0 0\n\
            node \"a\" 0 5 -1 2 metal 4 10\nequiv \"a\" \"b\"\nmerge \"u/x\" \"b\" -7 -1 -2\n",
    ),
    // An inverter.
    (
        b"tech nm\ntimestamp 0\nversion 1\nstyle nm\nscale 1 1 1\nresistclasses 30000 10000 30\n\
            node \"GND!\" 0 12400 2 0 dc 0 0 8 12 4 8\n\
            node \"in\" 0 4800 0 4 poly 8 16 0 0 0 0\n\
            node \"out\" 0 24800 2 6 diff 8 12 12 16 12 16\n\
            node \"Vdd!\" 0 17200 2 14 diff 0 0 12 16 4 8\n\
            fet efet 2 4 3 5 4 8 \"GND!\" \"in\" 4 0 \"GND!\" 2 0 \"out\" 2 0\n\
            fet dfet 2 12 3 13 4 8 \"GND!\" \"out\" 4 0 \"out\" 2 0 \"Vdd!\" 2 0\n",
        b"tech nm\ntimestamp 0\nversion 2\nstyle nm\nscale 1 1 1\nresistclasses 30000 10000 30\n\
            node \"GND!\" 0 12400 2 0 dc 0 0 8 12 4 8\n\
            node \"in\" 0 4800 0 4 poly 8 16 0 0 0 0\n\
            node \"out\" 0 24800 2 6 diff 8 12 12 16 12 16\n\
            node \"Vdd!\" 0 17200 2 14 diff 0 0 12 16 4 8\n\
            fet efet 2 4 3 5 4 8 \"GND!\" \"in\" 4 0 \"GND!\" 2 0 \"out\" 2 0\n\
            fet dfet 2 12 3 13 4 8 \"GND!\" \"out\" 4 0 \"out\" 2 0 \"Vdd!\" 2 0\n",
    ),
    // Two wires in one place.
    (
        b"tech nm\nversion 1\nresistclasses 30000 10000 30\nuse wire a 1 0 0 0 1 0\nuse wire b 0 -1 -5 1 0 7\n\
            merge \"a/metal_0_0#\" \"b/metal_0_0#\" -2200 0 0 0 0 -4 -10\n",
        b"tech nm\ntimestamp 0\nversion 2\nstyle nm\nscale 1 1 1\nresistclasses 30000 10000 30\nuse wire a 1 0 0 0 1 0\n\
            use wire b 0 -1 -5 1 0 7\nmerge \"a/metal_0_0#\" \"b/metal_0_0#\" -2200 0 0 0 0 -4 -10\n",
    ),
    // Nothing, and a technology without classes.
    (
        b"tech nm\nversion 2\nresistclasses\n",
        b"tech nm\ntimestamp 0\nversion 2\nstyle nm\nscale 1 1 1\nresistclasses\n",
    ),
    // In version 1 each element of an array is a use, with its indices behind the id.
    (
        b"tech nm\nversion 1\nresistclasses\nuse c a[0,-1] 1 0 0 0 1 0\nuse c a[1,-1] 1 0 5 0 1 0\nmerge a[0,-1]/x a[1,-1]/x 3\n",
        b"tech nm\ntimestamp 0\nversion 2\nstyle nm\nscale 1 1 1\nresistclasses\nuse c a[0,-1] 1 0 0 0 1 0\n\
            use c a[1,-1] 1 0 5 0 1 0\nmerge \"a[0,-1]/x\" \"a[1,-1]/x\" 3\n",
    ),
    // An array in version 2, with elements of it in paths.
    (
        b"tech nm\nversion 2\nresistclasses\nuse c a[0:2:5][1:0:-3] 1 0 0 0 1 0\nmerge a[2,1]/x a[0,0]/y/z 3\n",
        b"tech nm\ntimestamp 0\nversion 2\nstyle nm\nscale 1 1 1\nresistclasses\nuse c a[0:2:5][1:0:-3] 1 0 0 0 1 0\n\
            merge \"a[2,1]/x\" \"a[0,0]/y/z\" 3\n",
    ),
    // A range of an array, before the line of its use, and from a negative index on.
    (
        b"tech nm\nversion 2\nresistclasses 7\nmerge \"a[-2,0]/x\" \"a[-1:9,0]/x\" -4 -1 -2\nuse c a[-2:9:5][0:0:1] 1 0 0 0 1 0\n",
        b"tech nm\ntimestamp 0\nversion 2\nstyle nm\nscale 1 1 1\nresistclasses 7\nuse c a[-2:9:5][0:0:1] 1 0 0 0 1 0\n\
            merge \"a[-2,0]/x\" \"a[-1:9,0]/x\" -4 -1 -2\n",
    ),
    // A range of elements that several uses of one id give.
    (
        b"tech nm\nversion 2\nresistclasses\nuse c a[0:1:5][0:1:5] 1 0 0 0 1 0\nuse c a[2,1] 1 0 0 0 1 0\nuse d a[3:4:5][0:1:5] 1 0 0 0 1 0\n\
            node n 0 0 0 0 m\nmerge n a[0:4,1]/x 0\n",
        b"tech nm\ntimestamp 0\nversion 2\nstyle nm\nscale 1 1 1\nresistclasses\nuse c a[0:1:5][0:1:5] 1 0 0 0 1 0\nuse c a[2,1] 1 0 0 0 1 0\n\
            use d a[3:4:5][0:1:5] 1 0 0 0 1 0\nnode \"n\" 0 0 0 0 m\nmerge \"n\" \"a[0:4,1]/x\" 0\n",
    ),
    // As many elements as a grid may have, and the largest numbers.
    (
        b"tech nm\nversion 2\nresistclasses\nuse c a[0:999:2147483647][2147483647:2147482648:-2147483648] 1 0 0 0 1 0\n",
        b"tech nm\ntimestamp 0\nversion 2\nstyle nm\nscale 1 1 1\nresistclasses\n\
            use c a[0:999:2147483647][2147483647:2147482648:-2147483648] 1 0 0 0 1 0\n",
    ),
];

// Texts that are refused, of both versions where it makes no difference which.
const REFUSED: &[(&[u8], u32, ExtReadFault)] = &[
    (
        b"resistclasses 30\nversion 1\ntech nm\n\nmerge u/x \"a\" -7 -1 -2\n",
        5,
        ExtReadFault::NoName,
    ),
    (b"", 1, ExtReadFault::NoHeader),
    (b"tech nm\n", 1, ExtReadFault::NoHeader),
    (
        b"tech nm\nversion 1\nuse c u 1 0 0 0 1 0\n",
        3,
        ExtReadFault::NoHeader,
    ),
    (
        b"tech nm\nversion 1\nresistclasses\nfoo\n",
        4,
        ExtReadFault::BadLine,
    ),
    (
        b"tech nm\nversion 1\nresistclasses\nuse c u 1 0 0 0 1 0\nstyle nm\n",
        5,
        ExtReadFault::BadLine,
    ),
    (
        b"tech nm\nversion 1\nresistclasses 7\nnode a 0 1 0 0 m 1\n",
        4,
        ExtReadFault::BadLine,
    ),
    (
        b"tech nm\nversion 1\nresistclasses\nnode a 0 1 0 0 m\nfet e 1 2 2 2 4 8 s a 4 0\n",
        5,
        ExtReadFault::BadLine,
    ),
    (
        b"tech nm\nversion 3\nresistclasses\n",
        2,
        ExtReadFault::Version,
    ),
    (
        b"tech nm\ntech nm\nversion 1\nresistclasses\n",
        2,
        ExtReadFault::NameTwice,
    ),
    (
        b"tech nm\nversion 1\nresistclasses\nnode a 0 1 0 0 m\nequiv a a\n",
        5,
        ExtReadFault::NameTwice,
    ),
    (
        b"tech nm\nversion 1\nresistclasses\nnode a 0 1 2147483648 0 m\n",
        4,
        ExtReadFault::Range,
    ),
    (
        b"tech nm\nversion 1\nresistclasses 1000001\n",
        3,
        ExtReadFault::Range,
    ),
    (
        b"tech nm\nversion 1\nresistclasses\nuse c u 1 1 0 0 1 0\n",
        4,
        ExtReadFault::Transform,
    ),
    (
        b"tech nm\nversion 1\nresistclasses\nuse c u 1 0 0 0 1 0\nuse d u 1 0 0 0 1 0\n",
        5,
        ExtReadFault::UseTwice,
    ),
    (
        b"tech two\nversion 1\nresistclasses\nmerge \"u/x\" \"u/x\" 0\n",
        4,
        ExtReadFault::NoName,
    ),
    (
        b"tech nm\nversion 1\nresistclasses\nnode a 0 1 0 0 m\nfet e 1 2 2 3 4 8 s a 4 0 b 2 0\n",
        5,
        ExtReadFault::NoName,
    ),
    (
        b"tech nm\nversion 12\nresistclasses\n",
        2,
        ExtReadFault::Version,
    ),
    // An array in version 1, and before any version is read.
    (
        b"tech nm\nversion 1\nresistclasses\nuse c a[0:2:5][0:1:3] 1 0 0 0 1 0\n",
        4,
        ExtReadFault::BadLine,
    ),
    (
        b"tech nm\nuse c a[0:2:5][0:1:3] 1 0 0 0 1 0\nversion 2\nresistclasses\n",
        2,
        ExtReadFault::NoHeader,
    ),
    // More elements than a grid may have, and grid numbers that do not fit.
    (
        b"tech nm\nversion 2\nresistclasses\nuse c a[0:999:1][0:1000:1] 1 0 0 0 1 0\n",
        4,
        ExtReadFault::Range,
    ),
    (
        b"tech nm\nversion 2\nresistclasses\nuse c a[0:2147483648:1][0:0:1] 1 0 0 0 1 0\n",
        4,
        ExtReadFault::Range,
    ),
    (
        b"tech nm\nversion 2\nresistclasses\nuse c a[0:1:1][0:0:-2147483649] 1 0 0 0 1 0\n",
        4,
        ExtReadFault::Range,
    ),
    // Names of uses that are none.
    (
        b"tech nm\nversion 2\nresistclasses\nuse c a] 1 0 0 0 1 0\n",
        4,
        ExtReadFault::BadLine,
    ),
    (
        b"tech nm\nversion 1\nresistclasses\nuse c a,b 1 0 0 0 1 0\n",
        4,
        ExtReadFault::BadLine,
    ),
    (
        b"tech nm\nversion 2\nresistclasses\nuse c a,b[0:1:5][0:0:1] 1 0 0 0 1 0\n",
        4,
        ExtReadFault::BadLine,
    ),
    (
        b"tech nm\nversion 2\nresistclasses\nuse c a[0:1:5] 1 0 0 0 1 0\n",
        4,
        ExtReadFault::BadLine,
    ),
    (
        b"tech nm\nversion 2\nresistclasses\nuse c a[01,2] 1 0 0 0 1 0\n",
        4,
        ExtReadFault::BadLine,
    ),
    (
        b"tech nm\nversion 1\nresistclasses\nuse c a[-0,2] 1 0 0 0 1 0\n",
        4,
        ExtReadFault::BadLine,
    ),
    (
        b"tech nm\nversion 2\nresistclasses\nuse c a[0,2147483648] 1 0 0 0 1 0\n",
        4,
        ExtReadFault::BadLine,
    ),
    // Uses that give an element again.
    (
        b"tech nm\nversion 2\nresistclasses\nuse c a[0:2:5][0:1:3] 1 0 0 0 1 0\nuse d a[2,1] 1 0 0 0 1 0\n",
        5,
        ExtReadFault::UseTwice,
    ),
    (
        b"tech nm\nversion 2\nresistclasses\nuse d a[2,1] 1 0 0 0 1 0\nuse c a[3:2:5][1:1:3] 1 0 0 0 1 0\n",
        5,
        ExtReadFault::UseTwice,
    ),
    // Ranges that are none: at most one element, in the first path, in version 1, or with numbers not in their shortest form.
    (
        b"tech nm\nversion 2\nresistclasses\nuse c a[0:2:5][0:0:1] 1 0 0 0 1 0\nmerge a[0,0]/x a[1:1,0]/x 0\n",
        5,
        ExtReadFault::NoName,
    ),
    (
        b"tech nm\nversion 2\nresistclasses\nuse c a[0:2:5][0:0:1] 1 0 0 0 1 0\nmerge a[0,0]/x a[2:1,0]/x 0\n",
        5,
        ExtReadFault::NoName,
    ),
    (
        b"tech nm\nversion 2\nresistclasses\nuse c a[0:2:5][0:0:1] 1 0 0 0 1 0\nmerge a[0:1,0]/x a[2,0]/x 0\n",
        5,
        ExtReadFault::NoName,
    ),
    (
        b"tech nm\nversion 1\nresistclasses\nuse c a[0,0] 1 0 0 0 1 0\nuse c a[1,0] 1 0 0 0 1 0\nmerge a[0,0]/x a[0:1,0]/x 0\n",
        6,
        ExtReadFault::NoName,
    ),
    (
        b"tech nm\nversion 2\nresistclasses\nuse c a[0:2:5][0:0:1] 1 0 0 0 1 0\nmerge a[0,0]/x a[01:2,0]/x 0\n",
        5,
        ExtReadFault::NoName,
    ),
    // A range of which one element is not there.
    (
        b"tech nm\nversion 2\nresistclasses\nuse c a[0:2:5][0:0:1] 1 0 0 0 1 0\nmerge a[0,0]/x a[1:3,0]/x 0\n",
        5,
        ExtReadFault::NoName,
    ),
    // A use whose grid is too large or that gives an element again gives none to a merge before it, and one with another fault does.
    (
        b"tech nm\nversion 2\nresistclasses\nmerge a[0,0]/x a[1,0]/x 0\nuse c a[0:999:1][0:1000:1] 1 0 0 0 1 0\n",
        4,
        ExtReadFault::NoName,
    ),
    (
        b"tech nm\nversion 2\nresistclasses\nuse c a[0,0] 1 0 0 0 1 0\nmerge a[0,0]/x a[1,0]/x 0\nuse c a[0:1:5][0:0:1] 1 0 0 0 1 0\n",
        5,
        ExtReadFault::NoName,
    ),
    (
        b"tech nm\nversion 2\nresistclasses\nmerge a[0,0]/x a[1,0]/x 0\nuse c a[0:1:5][0:0:1] 1 1 0 0 1 0\n",
        5,
        ExtReadFault::Transform,
    ),
];

fn is_read(alloc: Global, text: &[u8], want: Want) -> Result<bool, Fail> {
    if text.len() > LONGEST_READ_TEXT {
        return Ok(false);
    }
    match read_ext(alloc, text, &Name::of(alloc, b"c")?) {
        Ok(record) => {
            let written = write_ext(alloc, &record)?;
            Ok(want == Ok(written.as_slice()))
        }
        Err(at) => Ok(want == Err((at.line, at.fault))),
    }
}

#[test]
fn texts_are_read(rt: HostRuntime) -> Result<(), Fail> {
    for (text, want) in READ {
        let read = is_read(rt.alloc(), text, Ok(*want))?;
        assert!(rt; read);
    }
    Ok(())
}

#[test]
fn texts_are_refused(rt: HostRuntime) -> Result<(), Fail> {
    for (text, line, fault) in REFUSED {
        let refused = is_read(rt.alloc(), text, Err((*line, *fault)))?;
        assert!(rt; refused);
    }
    Ok(())
}
