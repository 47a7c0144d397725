// What a text to value block that was made from a value to text block answers, behind the image that it was made from: each key's text gives that key.
// The crate has laws alone, and no code.

#![tactic(auto)]
