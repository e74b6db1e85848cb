// Loads: the calls of a file's lines, all or none.
ghost use Rattle.std.specs.Prelude.{◌≡◌};
ghost use Rattle.reader.specs.Format.{scanned};
ghost use Rattle.reader.specs.Loading.{Leaves};
ghost use Rattle.graph.specs.Refusals.{numbered, refusal_number};
ghost use Rattle.graph.specs.Block.{Block, block_of, verdict, with_arc};
ghost use Rattle.graph.specs.Pair.{Paired};
ghost use Rattle.graph.specs.Computed.{line_step};
ghost use Rattle.graph.specs.Lines.{kind_of, Loads};

use crate::loading::Loading;
use crate::parts::{GraphFile, Refusal};
use crate::store::{BothEnds, TimingGraph};
use reader::{FileRefusal, Kind, Record, Side, Sink, run};

impl From<GraphFile> for Kind {
    ghost from_gives = { λ file kind. kind ≡ kind_of file };

    fn from(file: GraphFile) -> Kind {
        match file {
            GraphFile::Arcs => Kind::Arcs,
            GraphFile::Bounds => Kind::Bounds,
            GraphFile::FalseSets => Kind::FalseSets,
        }
    }
}

impl Loading {
    // A copy of the graph, ready for a file's lines.
    fn on(graph: &TimingGraph) -> Loading
        ensures { block_of result.graph ≡ block_of graph.now }
    {
        let copy = TimingGraph {
            taken: graph.taken,
            arcs: graph.arcs,
            starts: graph.starts,
            ends: graph.ends,
        };
        Loading {
            graph: copy,
            indexes: None,
        }
    }

    fn add_arc(&mut self, from: i32, to: i32) -> Result<(), Refusal>
        ensures answer { numbered result ≡ verdict (with_arc (block_of self.old.graph) from to).answer }
        ensures after { block_of self.new.graph ≡ (with_arc (block_of self.old.graph) from to).after }
    {
        // a None is written whole, as large as the indexes, so it is not written where there are none
        if self.indexes.is_some() {
            self.indexes = None;
        }
        self.graph.add_arc(from, to)?;
        Ok(())
    }

    fn pair(&mut self, set: i32, from: i32, to: i32) -> Result<(), Refusal>
        ensures { Paired (block_of self.old.graph) set from to (numbered result) (block_of self.new.graph) }
    {
        let graph = &mut self.graph;
        let indexes = self.indexes.get_or_insert_with(|| BothEnds::of(graph));
        graph.pair_by(indexes, set, from, to)
    }

    // Makes a line's call.
    fn enter(&mut self, entry: Record) -> Result<(), Refusal>
        ensures { Leaves (line_step (block_of self.old.graph) entry) (block_of self.old.graph) (numbered result) (block_of self.new.graph) }
    {
        match entry {
            Record::Arc { from, to } => self.add_arc(from, to),
            Record::Bound {
                node,
                side: Side::Start,
                ticks,
            } => self.graph.set_start(node, ticks),
            Record::Bound {
                node,
                side: Side::End,
                ticks,
            } => self.graph.set_end(node, ticks),
            Record::Pair { set, from, to } => self.pair(set, from, to),
            Record::Delay { .. } => Err(Refusal::OutOfRange),
        }
    }
}

impl Sink for Loading {
    ghost model = { Block };

    ghost holds = { λ l. block_of l.graph };

    ghost step = { λ b x. line_step b x };

    type Refusal = Refusal;

    ghost number = { refusal_number };

    fn take(&mut self, entry: Record) -> Result<(), Refusal> {
        self.enter(entry)
    }

    fn number(refusal: &Refusal) -> u8 {
        refusal.number()
    }
}

impl TimingGraph {
    // Makes the calls of a file's lines in order, all or none.
    pub fn load(&mut self, file: GraphFile, bytes: &[u8]) -> Result<(), FileRefusal>
        ensures { Loads (block_of self.old) (scanned (kind_of file) bytes.now) result (block_of self.new) }
    {
        let mut loading = Loading::on(self);
        run(file.into(), bytes, &mut loading)?;
        let Loading { graph, .. } = loading;
        *self = graph;
        Ok(())
    }
}
