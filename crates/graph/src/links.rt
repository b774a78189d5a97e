// The edges of a graph as two words for each vertex.
use model::limits::MOST_VERTICES;

// For each vertex number the vertices with an edge to it, and those to which it has an edge. Two arrays and not one of pairs: arms are found by
// the one alone, and latest ends by the other.
#[derive(Drop)]
pub struct Links {
    pub into: [u64; MOST_VERTICES],
    pub out: [u64; MOST_VERTICES],
}
