//! Names.

ghost use Rattle.std.specs.Prelude.{◌≡◌, true, false, IfSome, IfNone};
ghost use Rattle.fl_lex.specs.Words.{is_name};

use fl_lex::is_name;

/// A name of the language: a letter or `_`, then letters, digits and `_`, at most 64 bytes.
#[derive(Debug, Drop)]
pub struct Word {
    /// The name's bytes, in order.
    pub bytes: Vec<u8>,
    pub ghost named: { is_name bytes.items ≡ true },
}

impl Word {
    /// The name that these bytes are; none where they are no word of at most 64 bytes.
    pub fn new(bytes: Vec<u8>) -> Option<Word>
        ensures bytes { IfSome result (λ w. w.bytes.items ≡ bytes.items) }
        ensures none { IfNone result (is_name bytes.items ≡ false) }
    {
        if !is_name(&bytes) {
            return None;
        }
        Some(Word { bytes })
    }
}
