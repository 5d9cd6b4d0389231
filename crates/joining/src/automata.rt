// Two automata as one: the edges of each behind a new start, with copies of those that leave its own.
ghost use Rattle.std.specs.Prelude.{◌≡◌, ◌∷◌, [], map, ◌+◌, ◌*◌, ◌^◌, ◌<◌, ◌≤◌, eqb, length};
ghost use Rattle.theory.specs.Lists.{one};
ghost use Rattle.model.specs.Join as join;
ghost use Rattle.model.specs.Join.{join_automata, is_too_large};
ghost use Rattle.automaton.specs.Struct.{Arrays, edge_of, first_in, automaton_of};
ghost use Rattle.sheet.specs.Steps.{with_edges};
ghost use Rattle.joining.specs.Parts.{Proper, Joinable};

use automaton::{Automaton, Edge};
use model::AutomatonState;

// ---- edges whose states stand so many further on
// The edge itself.
#[tactic(auto, unfolding(model::specs::Join::moved))]
fn moved(edge: Edge, by: u8) -> Edge
    requires { (by + edge.from.0 < 256) × (by + edge.to.0 < 256) }
    ensures { edge_of result ≡ join.moved by (edge_of edge) }
{
    Edge {
        from: AutomatonState(by + edge.from.0),
        to: AutomatonState(by + edge.to.0),
        ..edge
    }
}

// Its copy at the new start.
#[tactic(auto, unfolding(model::specs::Join::copied))]
fn copied(edge: Edge, by: u8) -> Edge
    requires { by + edge.to.0 < 256 }
    ensures { edge_of result ≡ join.copied by (edge_of edge) }
{
    Edge {
        from: AutomatonState(0),
        to: AutomatonState(by + edge.to.0),
        ..edge
    }
}

// The copy behind the edges of `into`, if the edge leaves q.
fn with_copy(into: Automaton, edge: Edge, q: AutomatonState, by: u8) -> Automaton
    requires arrays { Arrays into }
    requires edge_bound { into.edges + length (join.copies by q.0 (edge_of edge ∷ [])) ≤ 64 }
    requires to_bound { by + edge.to.0 < 256 }
    ensures result_value { automaton_of result ≡ with_edges (automaton_of into) (join.copies by q.0 (edge_of edge ∷ [])) }
    ensures arrays_after { Arrays result }
{
    if edge.from.0 != q.0 {
        return into;
    }
    into.with_edge(copied(edge, by))
}

// ---- all edges of an automaton, behind those of `into`
// Copies of those that leave its initial state.
fn with_copies(into: Automaton, u: Automaton, by: u8) -> Automaton
    requires arrays { Arrays into × Proper u × (by ≤ 16) }
    requires edges_bound { into.edges + length (join.copies by u.initial.0 (first_in u u.edges)) ≤ 64 }
    ensures result_value { automaton_of result ≡ with_edges (automaton_of into) (join.copies by u.initial.0 (first_in u u.edges)) }
    ensures arrays_after { Arrays result }
{
    let q = u.initial;
    let mut joined = into;
    for edge in &u.edge_list[..u.edges] {
        joined = with_copy(joined, *edge, q, by);
    }
    joined
}

// Each of them.
fn with_edges(into: Automaton, u: Automaton, by: u8) -> Automaton
    requires arrays { Arrays into × Proper u × (by ≤ 16) }
    requires edges_bound { into.edges + u.edges ≤ 64 }
    ensures result_value { automaton_of result ≡ with_edges (automaton_of into) (map (join.moved by) (first_in u u.edges)) }
    ensures arrays_after { Arrays result }
{
    let mut joined = into;
    for edge in &u.edge_list[..u.edges] {
        joined = joined.with_edge(moved(*edge, by));
    }
    joined
}

// ---- how large both are as one
// 1 for an edge that leaves q, and 0 for any other.
fn count_one(edge: Edge, q: AutomatonState) -> usize
    ensures { result ≡ one (eqb edge.from.0 q.0) }
{
    if edge.from.0 == q.0 {
        return 1;
    }
    0
}

// How many edges leave the initial state.
fn leaving(u: Automaton) -> usize
    requires { Arrays u }
    ensures value { result ≡ length (join.leaving u.initial.0 (first_in u u.edges)) }
    ensures upper_bound { result ≤ 64 }
{
    let q = u.initial;
    let mut count: usize = 0;
    for edge in &u.edge_list[..u.edges] {
        count += count_one(*edge, q);
    }
    count
}

// 20: more than 16 states, or more than 64 edges, copies counted.
pub fn are_too_large(u: Automaton, w: Automaton) -> bool
    requires { Proper u × Proper w }
    ensures { result ≡ is_too_large (join_automata (automaton_of u) (automaton_of w)) }
{
    if 16 < 1 + u.states + w.states {
        return true;
    }
    64 < leaving(u) + leaving(w) + u.edges + w.edges
}

// ---- both as one
// The rejecting states: the new start is none.
fn rejecting(u: Automaton, w: Automaton) -> u16
    requires { Joinable u w }
    ensures { result ≡ w.rejecting * 2 ^ (1 + u.states) + u.rejecting * 2 }
{
    let second = 1 + u.states;
    (w.rejecting << second) + u.rejecting * 2
}

// A new start, the states of u, then those of w; copies first, then all edges.
pub fn join_automata(u: Automaton, w: Automaton) -> Automaton
    requires { Joinable u w }
    ensures result_value { automaton_of result ≡ join_automata (automaton_of u) (automaton_of w) }
    ensures arrays { Arrays result }
{
    let second = 1 + u.states;
    let opened = Automaton::opened(second + w.states, AutomatonState(0), rejecting(u, w));
    let copies_of_u = with_copies(opened, u, 1);
    let copies_of_both = with_copies(copies_of_u, w, second);
    let edges_of_u = with_edges(copies_of_both, u, 1);
    with_edges(edges_of_u, w, second)
}
