//! The worked tree: its form, its counts, its prices and its chance.
#![tactic(auto)]

ghost use Rattle.std.specs.Prelude.{◌≡◌};
ghost use Rattle.tree.specs.Layout.{nodes_of};
ghost use Rattle.worked.specs.Examples.{worked};

mod lay;
#[cfg(test)]
mod tests;

use scale::{Count, Price};
use std::io;
use tree::{Layout, Node, PLACES, chance, evaluate, write_form};

/// The worked tree, laid out.
#[derive(Clone, Copy)]
struct Worked<'a> {
    layout: Layout<'a>,
    ghost laid: { layout.nodes.now ≡ nodes_of worked },
}

impl Worked<'_> {
    fn print_form(self, rt: &HostRuntime) -> io::Result<()> {
        let mut text = [0; 64];
        let length = write_form(self.layout, &mut text);
        print!(rt; "form: ")?;
        rt.write_all(&text[..length])?;
        println!(rt; "")
    }

    // Each scale has memory of its own for the pairs: an array of a type parameter could be too large, and lent memory would be made here for each all the same.
    fn print_counts(self, rt: &HostRuntime) -> io::Result<()> {
        let ones = [Count::new(1); 5];
        let mut pairs = [(Count::new(0), Count::new(0)); 9];
        let (holds, fails) = evaluate(self.layout, &ones, &ones, &mut pairs);
        let (holds, fails) = (holds.value(), fails.value());
        println!(rt; "worlds, counted: {holds} hold, {fails} fail")
    }

    fn print_prices(self, rt: &HostRuntime) -> io::Result<()> {
        let ins = [Price(3), Price(1), Price(2), Price(1), Price(5)];
        let outs = [Price(0); 5];
        let mut pairs = [(Price(0), Price(0)); 9];
        let (holds, fails) = evaluate(self.layout, &ins, &outs, &mut pairs);
        let (holds, fails) = (holds.0, fails.0);
        println!(rt; "cheapest world: {holds} where it holds, {fails} where it fails")
    }

    fn print_chance(self, rt: &HostRuntime) -> io::Result<()> {
        let sure = [
            800_000_000,
            500_000_000,
            500_000_000,
            500_000_000,
            900_000_000,
        ];
        let (low, high) = chance(self.layout, &sure).ends();
        println!(rt; "chance in billionths: {low} to {high}")
    }
}

fn main(rt: HostRuntime) -> io::Result<()> {
    let mut memory = [Node::Vacant; PLACES];
    let count = lay::lay_worked(&mut memory);
    let worked = Worked {
        layout: Layout {
            nodes: &memory[..count],
        },
    };
    worked.print_form(&rt)?;
    worked.print_counts(&rt)?;
    worked.print_prices(&rt)?;
    worked.print_chance(&rt)
}
