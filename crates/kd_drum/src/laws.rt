//! Laws of the Converter's cipher: they follow from its definition, whatever the code does.
ghost use Rattle.kd_drum.specs.Laws.{ConverterTwiceGivesBack, ConverterCipherOfChunks, ConverterKeyAfterChunks};

/// Enciphering twice with the same key gives the text back.
#[tactic(auto, using(crate::proofs::Ciphers::twice_gives_back))]
pub fn enciphering_twice_gives_back()
    ensures { ConverterTwiceGivesBack }
{}

/// A text can be enciphered in chunks. Each chunk starts from the letters that the wheels show after the previous
/// chunk.
#[tactic(auto, using(crate::proofs::Ciphers::cipher_in_turn))]
pub fn chunks_are_enciphered_in_turn()
    ensures cipher { ConverterCipherOfChunks }
    ensures after { ConverterKeyAfterChunks }
{}
