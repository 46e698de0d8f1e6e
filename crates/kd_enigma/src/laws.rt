//! Laws of the Enigma's cipher. They follow from the cipher's definition, not from the code.
ghost use Rattle.std.specs.Prelude.{[]};
ghost use Rattle.kd_tables.specs.Permutation.{exchange};
ghost use Rattle.kd_enigma.specs.Cipher.{IsPlugboard};
ghost use Rattle.kd_enigma.specs.Laws.{PairsMakeAPlugboard, PairsExchange, SamePairsExchangeAlike, PathsAreOwnInverses};
ghost use Rattle.kd_enigma.specs.Laws.{PathsMoveEachLetter, EnigmaTwiceGivesBack, EnigmaCipherOfChunks};
ghost use Rattle.kd_enigma.specs.Laws.{EnigmaKeyAfterChunks, PairedPathsLeadBack, PairedKeysGiveBack};

/// Pairs in which no letter occurs twice make a plugboard, which exchanges the two letters of each pair.
///
/// Neither the order of the pairs nor the order of a pair's letters makes a difference.
#[tactic(auto, using(crate::proofs::Cables::pairs_make_a_plugboard, crate::proofs::Cables::same_pairs_exchange_alike))]
pub fn pairs_make_a_plugboard()
    ensures plugboard { PairsMakeAPlugboard }
    ensures exchanged { PairsExchange }
    ensures same { SamePairsExchangeAlike }
{}

/// A board without cables is a plugboard: a permutation that is its own inverse.
#[tactic(auto, using(crate::proofs::Cables::no_cables))]
pub fn an_empty_board_is_a_plugboard()
    ensures { IsPlugboard (exchange []) }
{}

/// The current's path turns each letter `x` into another letter, and that letter back into `x`.
#[tactic(auto, using(crate::proofs::Ways::paths_lead_back, crate::proofs::Ways::paths_move_each_letter))]
pub fn path_is_its_own_inverse()
    ensures own_inverse { PathsAreOwnInverses }
    ensures none_fixed { PathsMoveEachLetter }
{}

/// Enciphering twice with the same key gives the text back.
#[tactic(auto, using(crate::proofs::Ciphers::twice_gives_back))]
pub fn enciphering_twice_gives_back()
    ensures { EnigmaTwiceGivesBack }
{}

/// If the plugboard is made from pairs, the current's path is its own inverse, and maps no letter to itself.
///
/// Enciphering twice with the same key gives the text back.
pub fn keys_with_pairs_lead_back()
    ensures path { PairedPathsLeadBack }
    ensures cipher { PairedKeysGiveBack }
{}

/// A text can be enciphered in chunks. Each chunk starts from the letters that the windows show after the previous
/// chunk.
#[tactic(auto, using(crate::proofs::Ciphers::cipher_in_turn, crate::proofs::Ciphers::key_in_turn))]
pub fn chunks_are_enciphered_in_turn()
    ensures cipher { EnigmaCipherOfChunks }
    ensures after { EnigmaKeyAfterChunks }
{}
