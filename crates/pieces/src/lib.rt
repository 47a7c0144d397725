// Pieces of a text, put into a lent output. One family of functions measures and writes: a piece goes to the places from `pos` on that lie
// below `lim`, so that nothing is written where `lim` is 0, and the place behind the piece is handed back either way. Places stop one behind the
// room: what lies further need not be known, and no byte of a text is looked at for it. Stands for `String`, `format!` and `join` of text.rs and
// bitfield.rs. See each module.

#![tactic(auto)]

pub mod label;
pub mod paste;
pub mod said;
