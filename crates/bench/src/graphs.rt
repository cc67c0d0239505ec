//! Connected parts, splits and chains, on graphs of 64, 128 and 256 members.
ghost use Rattle.std.specs.Prelude.{◌≡◌};

use crate::{timed, yes_or_no};
use graph::answers::Split;
use graph::chains::chain;
use graph::sets::MemberSet;
use graph::splits::split;
use graph::stored::StoredGraph;
use graph::walks::parts;
use std::io;

// A graph of so many members, each two of which are joined or not.
fn graph_of<J: Fn(u8, u8) -> bool>(size: usize, joins: &J) -> StoredGraph
    requires { J.IsAlwaysCallable joins.now }
{
    let mut graph = StoredGraph::new(size);
    for b in 0..=255u8 {
        for a in 0..b {
            if joins(a, b) {
                graph.join(a, b);
            }
        }
    }
    graph
}

// Work on a selected set, measured on graphs of more and more members. A number comes of it.
// One trial is made from another by `..`, which a struct with a ghost field does not take: so each call asks that the closures may be called.
#[derive(Clone, Copy)]
struct Trial<J, W> {
    name: &'static str,
    // which members are joined
    joins: J,
    work: W,
    // how often the work is done in one measure, each time without another member
    rounds: u8,
    // how many times longer it may take where there are twice as many members
    most: u128,
}

impl<J: Fn(u8, u8) -> bool, W: Fn(&StoredGraph, MemberSet) -> usize> Trial<J, W> {
    fn new(name: &'static str, joins: J, work: W) -> Trial<J, W>
        ensures joins { result.joins ≡ joins }
        ensures work { result.work ≡ work }
    {
        Trial {
            name,
            joins,
            work,
            rounds: 64,
            most: 16,
        }
    }

    // The shortest of five measures, in nanoseconds for one round, at least 1; and the sum of all answers, so that no work is left out.
    fn measure(
        &self,
        rt: &HostRuntime,
        graph: &StoredGraph,
        all: MemberSet,
    ) -> io::Result<(u128, usize)>
        requires { W.IsAlwaysCallable self.now.work }
    {
        let mut best = u128::MAX;
        let mut sum = 0usize;
        for _ in 0..5 {
            let (took, answers) = timed(rt, || self.answers(graph, all))?;
            sum = sum.wrapping_add(answers);
            best = best.min(took / u128::from(self.rounds.max(1)));
        }
        Ok((best.max(1), sum))
    }

    // The answers of all rounds, summed.
    fn answers(&self, graph: &StoredGraph, all: MemberSet) -> usize
        requires { W.IsAlwaysCallable self.now.work }
    {
        let mut sum = 0usize;
        for k in 0..self.rounds {
            let mut selected = all;
            selected.remove(k);
            sum = sum.wrapping_add((self.work)(graph, selected));
        }
        sum
    }

    fn run(&self, rt: &HostRuntime) -> io::Result<()>
        requires joins { J.IsAlwaysCallable self.now.joins }
        requires work { W.IsAlwaysCallable self.now.work }
    {
        let mut before = None;
        let mut within = true;
        for size in [64, 128, 256] {
            let graph = graph_of(size, &self.joins);
            let all = MemberSet::below(size);
            let answer = (self.work)(&graph, all);
            println!(rt; "{}, {size} members: {answer}", self.name)?;
            let (nanos, sum) = self.measure(rt, &graph, all)?;
            eprintln!(rt; "{}, {size} members: {nanos} ns, {sum} in all", self.name)?;
            let tenths = before.and_then(|before: u128| nanos
                .saturating_mul(10)
                .checked_div(before));
            if let Some(tenths) = tenths {
                eprintln!(rt;
                    "{}, per doubling: {}.{} times",
                    self.name,
                    tenths / 10,
                    tenths % 10
                )?;
                within = within && tenths / 10 < self.most;
            }
            before = Some(nanos);
        }
        println!(rt;
            "{}, per doubling under {} times: {}",
            self.name,
            self.most,
            yes_or_no(within)
        )
    }
}

// Paths of eight: many parts in the graph.
fn sparse(a: u8, b: u8) -> bool {
    b.saturating_sub(a) == 1 && b % 8 != 0
}

// All but the members of one block of eight: many parts in the complement.
fn dense(a: u8, b: u8) -> bool {
    a / 8 != b / 8
}

// Each even member with each odd one: no chain.
fn sides(a: u8, b: u8) -> bool {
    a % 2 != b % 2
}

// Each even member with each higher odd one: connected both ways.
fn half(a: u8, b: u8) -> bool {
    a % 2 == 0 && b % 2 == 1
}

// How many connected parts there are.
fn count_parts(graph: &StoredGraph, selected: MemberSet) -> usize {
    parts(graph, selected).as_slice().len()
}

// Into how many parts a split falls.
fn count_split(graph: &StoredGraph, selected: MemberSet) -> usize {
    match split(graph, selected) {
        Split::InGraph(parts) | Split::InComplement(parts) => parts.as_slice().len(),
        Split::Empty | Split::Single(_) | Split::Stuck(_) => 0,
    }
}

// How many chains are found: one or none.
fn count_chain(graph: &StoredGraph, selected: MemberSet) -> usize {
    usize::from(chain(graph, selected).is_some())
}

pub(crate) fn run(rt: &HostRuntime) -> io::Result<()> {
    Trial::new("parts of a sparse graph", sparse, count_parts).run(rt)?;
    Trial::new("parts of a dense graph", dense, count_parts).run(rt)?;
    Trial::new("split of a sparse graph", sparse, count_split).run(rt)?;
    Trial::new("split of a dense graph", dense, count_split).run(rt)?;
    Trial::new(
        "split of a graph that is connected both ways",
        half,
        count_split,
    )
    .run(rt)?;
    Trial::new("chain found", half, count_chain).run(rt)?;
    Trial {
        rounds: 2,
        most: 32,
        ..Trial::new("chain excluded", sides, count_chain)
    }
    .run(rt)
}
