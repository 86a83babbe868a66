// Parts of elements, written to standard output.
use words::{Talk, say, say_number};

pub(crate) fn write(talk: Talk<'_>, text: &[u8]) {
    say(talk, text);
}

// A number, with what stands before it.
pub(crate) fn write_unit(talk: Talk<'_>, before: &[u8], number: u32) {
    say(talk, before);
    say_number(talk, number);
}

// The sheet of styles: a letter for each kind of words, boxes by their depth, arcs, and their ends.
fn write_styles(talk: Talk<'_>) {
    write(
        talk,
        b"<style>.n{fill:#999;text-anchor:end}.h{fill:#223;font-weight:bold}.l{fill:#667;font-size:10px}.o{fill:#223;font-weight:bold}.f{fill:#445}.d{fill:#0b5e1e}.r{fill:#0a3d91}.p{fill:#667}.i{fill:#9a4a00}.x{fill:#c00000}.m{fill:#c00000;font-weight:bold}\n",
    );
    write(
        talk,
        b".g{fill:#fde3c5}.u{stroke:#d3dbe8}.b{stroke:#9aa7b8}.s0{fill:#f6f8fb}.s1{fill:#eef4ea}.s2{fill:#f4f0f7}.s3{fill:#f8f4e8}\n",
    );
    write(
        talk,
        b".a{fill:none;stroke:#0a3d91}.c{fill:none;stroke:#c2410c}.t{fill:none;stroke:#c00000;stroke-width:3}</style>\n",
    );
}

// The head of an arrow, in the colour of its arc.
fn write_marker(talk: Talk<'_>, id: &[u8], colour: &[u8]) {
    write(talk, b"<marker id=\"");
    write(talk, id);
    write(
        talk,
        b"\" viewBox=\"0 0 8 8\" refX=\"7\" refY=\"4\" markerWidth=\"8\" markerHeight=\"8\" markerUnits=\"userSpaceOnUse\" orient=\"auto\"><path d=\"M0 0L8 4L0 8z\" fill=\"",
    );
    write(talk, colour);
    write(talk, b"\"/></marker>\n");
}

// Begins a picture of that size.
pub(crate) fn begin(talk: Talk<'_>, width: u32, height: u32) {
    write_unit(
        talk,
        b"<svg xmlns=\"http://www.w3.org/2000/svg\" width=\"",
        width,
    );
    write_unit(talk, b"\" height=\"", height);
    write_unit(talk, b"\" viewBox=\"0 0 ", width);
    write_unit(talk, b" ", height);
    write(
        talk,
        b"\" font-family=\"DejaVu Sans Mono, monospace\" font-size=\"11\">\n",
    );
    write_styles(talk);
    write(talk, b"<defs>");
    write_marker(talk, b"ea", b"#0a3d91");
    write_marker(talk, b"ec", b"#c2410c");
    write_marker(talk, b"et", b"#c00000");
    write(
        talk,
        b"</defs>\n<rect width=\"100%\" height=\"100%\" fill=\"#fff\"/>\n",
    );
}

// Begins a line of words of a class.
pub(crate) fn begin_text(talk: Talk<'_>, class: &[u8], x: u32, y: u32) {
    write(talk, b"<text class=\"");
    write(talk, class);
    write_unit(talk, b"\" x=\"", x);
    write_unit(talk, b"\" y=\"", y);
    write(talk, b"\">");
}

pub(crate) fn end_text(talk: Talk<'_>) {
    write(talk, b"</text>\n");
}
