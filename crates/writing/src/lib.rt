// What every writer of a mesh shares: the checks of a mesh that is handed in, as a list and its counts
// and faces. Any counts, lengths, signs and quads may be handed in. Every public function promises its
// whole answer by one equation with a definition of specs/, and requires nothing. What a writer answers is
// how many bytes it wrote, or a refusal (specs/Written.antt).
#![tactic(auto)]

pub mod handed;
