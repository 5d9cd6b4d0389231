// A universal co-Büchi automaton: what AU and the ED and EX records of a sheet say.
#![tactic(auto)]

ghost use Rattle.std.specs.Prelude.{◌≡◌, [], ◌+◌, ◌<◌};
ghost use Rattle.model.specs.Sheet as model;
ghost use Rattle.model.specs.RunGraph.{matches, meets};
ghost use Rattle.automaton.specs.Struct.{Arrays, edge_of, edge_in, automaton_of};

use model::AutomatonState;

// Between automaton states: an ED is met by a label with all of `on` and none of `off`, an EX, which says unless, by any other.
#[derive(Clone, Copy)]
pub struct Edge {
    pub from: AutomatonState,
    pub to: AutomatonState,
    pub on: u8,
    pub off: u8,
    pub unless: bool,
}

// The first `edges` of the list count. The count stands beside an array since memory is fixed and calls take the automaton by value: arrayvec's ArrayVec is not Copy.
#[derive(Clone, Copy)]
pub struct Automaton {
    pub states: u8,
    pub initial: AutomatonState,
    pub rejecting: u16,
    pub edges: usize,
    pub edge_list: [Edge; 64],
}

// What stands in the list before an edge does.
const NO_EDGE: Edge = Edge {
    from: AutomatonState(0),
    to: AutomatonState(0),
    on: 0,
    off: 0,
    unless: false,
};

impl Edge {
    // The label has all of the on mask and none of the off mask.
    #[tactic(auto, unfolding(model::specs::RunGraph::matches, model::specs::Mask::within, model::specs::Mask::share))]
    fn matches(self, label: u8) -> bool
        ensures { result ≡ matches (edge_of self) label }
    {
        self.on & label == self.on && self.off & label == 0
    }

    // The label meets an ED that it matches, and an EX that it does not.
    pub fn is_met(self, label: u8) -> bool
        ensures { result ≡ meets (edge_of self) label }
    {
        self.matches(label) != self.unless
    }
}

impl Automaton {
    // AU, with no edge yet.
    pub fn opened(states: u8, initial: AutomatonState, rejecting: u16) -> Automaton
        ensures result_value { automaton_of result ≡ record { states = states; initial = initial.0; rejecting = rejecting; edges = [] } }
        ensures arrays { Arrays result × (result.edges ≡ 0) }
    {
        Automaton {
            states,
            initial,
            rejecting,
            edges: 0,
            edge_list: [NO_EDGE; 64],
        }
    }

    // One edge more.
    pub fn with_edge(mut self, edge: Edge) -> Automaton
        requires arrays { Arrays self }
        requires edges_bound { self.edges < 64 }
        ensures result_value { automaton_of result ≡ model.with_edge (automaton_of self) (edge_of edge) }
        ensures arrays_after { Arrays result × (result.edges ≡ self.edges + 1) }
    {
        let n = self.edges;
        self.edge_list[n] = edge;
        self.edges = n + 1;
        self
    }

    // Edge i.
    pub fn edge(self, i: usize) -> Edge
        requires arrays { Arrays self }
        requires i_lt_edges { i < self.edges }
        ensures { edge_of result ≡ edge_in self i }
    {
        self.edge_list[i]
    }
}
