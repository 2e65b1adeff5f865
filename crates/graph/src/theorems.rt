// The theorems of the method, each the contract of a function.
ghost use Rattle.graph.specs.Claims.{PassExact, MovesExact, RanksRefute, LoopRuns, GraphDecides, QuestionDecides, LoopsOrRanks, CountStands, LoopShort, ListsSound, AcceptedExact, TruthsExact};
ghost use Rattle.graph.specs.Rows.{Rows};

// The computed unfolding is that of the definitions: the same branches, positions, successors, initial node and ω-nodes.
pub fn pass_is_exact()
    ensures { PassExact }
{}

// The computed branches of a node are just its steps.
pub fn moves_are_exact()
    ensures { MovesExact }
{}

// A ranked graph refutes: no run makes the last line true.
pub fn ranks_refute()
    ensures { RanksRefute }
{}

// An ω-loop gives a run, by the signals that its branches need on.
pub fn loop_runs()
    ensures { LoopRuns }
{}

// There is a run just where the graph has an ω-loop.
pub fn graph_decides()
    ensures { GraphDecides }
{}

// A run meets a question exactly when some ω-node of its graph reaches itself.
pub fn question_decides()
    ensures { QuestionDecides }
{}

// A listed graph has an ω-loop, or ranks that refute.
pub fn loops_or_ranks()
    ensures { LoopsOrRanks }
{}

// All listings of a graph without repetition are equally long.
pub fn count_stands()
    ensures { CountStands }
{}

// An ω-loop can be had whose run is no longer than the node count allows.
pub fn loop_is_short()
    ensures { LoopShort }
{}

// A list that passes the test is the graph.
pub fn listing_is_sound()
    ensures { ListsSound }
{}

// The test over the branches accepts just the ranked graphs in which no node stands twice.
pub fn accepted_is_exact()
    ensures { AcceptedExact }
{}

// Truth on a run, computed place by place, is truth.
pub fn truths_are_exact()
    ensures { TruthsExact }
{}

// The example rules have these lines, choice lines, nodes and verdicts.
pub fn rows_stand()
    ensures { Rows }
{}
