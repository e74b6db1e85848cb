// The theorems about paths, tags and the timing sheet. Each function's contract is one theorem: `blocks` of all sound blocks, `graphs` of the blocks that timing graphs make.
#![tactic(auto)]

ghost use Rattle.paths.specs.Blocks.{RowBlock};
ghost use Rattle.paths.specs.Calls.{CallsAreComputed};
ghost use Rattle.paths.specs.Cases.{CasesHold, CasesAreMet};
ghost use Rattle.paths.specs.Theorems.{OfBlocks, AtGraphs, OfGraphs, GraphsAreSound, BlocksMirror, LowestStops, TagsAreSums, LowerFirstSuits, TagsAreStretches, CarriedIsOpen, SheetIsSettled, SlackIsLeast, TraceShowsLeast, RowsStaySmall, SumsAreAnswered, RangeSuffices};

/// The block that a graph makes is sound and mirrors the graph; where there is none, the lowest arc without ticks says why.
pub fn graphs_make_blocks()
    ensures sound { OfGraphs GraphsAreSound }
    ensures mirrors { AtGraphs BlocksMirror }
    ensures sets { TagsAreSums }
    ensures stops { LowestStops }
{}

/// To work the lower node first suits every graph.
pub fn lower_first_suits()
    ensures { LowerFirstSuits }
{}

/// A tag is the sets of which a stretch is under way.
pub fn tags_are_stretches<R>()
    ensures blocks { (b : RowBlock R) → TagsAreStretches b }
    ensures graphs { OfGraphs (λ w m b n. TagsAreStretches b) }
{}

/// A path is carried undropped exactly when it is open.
pub fn carried_is_open<R>()
    ensures blocks { (b : RowBlock R) → CarriedIsOpen b }
    ensures graphs { OfGraphs (λ w m b n. CarriedIsOpen b) }
{}

/// The sheet has one line for each node and tag with an arrival, in order, with its times, links and ties, and each node has its entry; no other sheet has.
pub fn sheet_is_settled()
    ensures blocks { OfBlocks SheetIsSettled }
    ensures graphs { OfGraphs SheetIsSettled }
{}

/// The slack of a node is the least slack of the open complete paths through it.
pub fn slack_is_least()
    ensures blocks { OfBlocks SlackIsLeast }
    ensures graphs { OfGraphs SlackIsLeast }
{}

/// The path that is traced for a node is an open complete path through it, with the node's slack.
pub fn trace_shows_least()
    ensures blocks { OfBlocks TraceShowsLeast }
    ensures graphs { OfGraphs TraceShowsLeast }
{}

/// The rows of a sheet stay far below the limit of the sums.
pub fn rows_stay_small()
    ensures blocks { OfBlocks RowsStaySmall }
    ensures graphs { OfGraphs RowsStaySmall }
{}

/// No sum that a sheet is made of is refused.
pub fn sums_are_answered()
    ensures blocks { OfBlocks SumsAreAnswered }
    ensures graphs { OfGraphs SumsAreAnswered }
{}

/// The sheet compares rows in range only.
pub fn range_suffices()
    ensures blocks { OfBlocks RangeSuffices }
    ensures graphs { OfGraphs RangeSuffices }
{}

/// The cases of the two-selector block come out as the table says.
pub fn cases_hold()
    ensures { CasesHold }
{}

/// The theorems are about the cases: their graphs, measures and blocks meet all that is asked.
pub fn cases_are_met()
    ensures { CasesAreMet }
{}

/// The calls that the cases compute are the ledger's.
pub fn calls_are_computed()
    ensures { CallsAreComputed }
{}
