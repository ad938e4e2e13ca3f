//! Text: fields that are read, and what is put into a space for text. It knows nothing of any program's lines.
//!
//! What a function promises is named after it. One that gives a value promises the definition of its own name, as
//! `field_of`; where there may be none, it gives an Option: `byte_of` answers `byte_of` of a field that is one,
//! `is_byte`. `put_x` puts `x_text` behind the text that is there; `put` and `put_all` put what they are given. In the
//! crates of lines, `read_x` reads `x_line`, and `read_line` the line itself, `line_of`; `answer_x` leaves `x_left`.
#![tactic(auto)]

pub mod limits;
pub mod read;
pub mod space;
