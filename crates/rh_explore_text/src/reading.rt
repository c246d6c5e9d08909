//! What a script asks of a search.

ghost use Rattle.std.specs.Prelude.{◌≡◌, IfOk, IsTrue, false, map};
ghost use Rattle.rh_model.specs.ClusterView.{ClusterView};
ghost use Rattle.rh_script.specs.Lines.{raw_lines, content};
ghost use Rattle.rh_explore_text.specs.declared.lines.SearchLine.TheVariants as asks;
ghost use Rattle.rh_explore_text.specs.SearchLines.{search_lines_asked, fits_search, begun_by};
ghost use Rattle.rh_explore_text.specs.SearchReading.{search_view, with_line, nothing_asked, IsSearchOf};

use crate::events::push_each;
use crate::lines::{SearchLine, search_line_of};
use rh_base::OutOfMemory;
use rh_calls::Call;
use rh_cluster::Cluster;
use rh_explore::{Ask, Move};
use rh_script::{Line, content, split_line};
use std::alloc::Global;

/// What is asked of a search.
#[derive(Drop)]
pub struct Search {
    /// The commands of its base.
    pub base: Vec<Call>,
    /// Whether a line was read that isn't one of the base.
    pub begun: bool,
    /// What may happen.
    pub moves: Vec<Move>,
    /// At most so many nodes are not up.
    pub down: u64,
    /// At most so many events follow one another.
    pub steps: u32,
    /// What is asked of the states that are reached.
    pub asks: Vec<Ask>,
}

/// What the lines of a script are.
#[derive(Drop)]
pub enum SearchScript {
    /// They ask this.
    Search(Search),
    /// The line of this number, counted from 1, is neither a command of the base nor a line of the search.
    BadLine(u64),
}

// Nothing may come, and nothing is asked.
fn nothing_asked(alloc: Global, cluster: &Cluster) -> Search
    ensures view { search_view result ≡ nothing_asked cluster.now }
    ensures begun { result.begun ≡ false }
{
    Search {
        base: Vec::new(alloc),
        begun: false,
        moves: Vec::new(alloc),
        down: cluster.node_count() as u64,
        steps: u32::MAX,
        asks: Vec::new(alloc),
    }
}

/// What the lines of a script ask of a search, or the number of the first bad one.
pub fn search_in(
    alloc: Global,
    cluster: &Cluster,
    script: &[u8],
) -> Result<SearchScript, OutOfMemory>
    ensures { IfOk result (IsSearchOf cluster.now
        (search_lines_asked cluster.now (map content (raw_lines script.now)))) }
{
    let mut search = nothing_asked(alloc, cluster);
    let mut rest = script;
    let mut number: u64 = 1;
    'lines: while !rest.is_empty() {
        let (line, after) = split_line(rest);
        let asked = search_line_of(alloc, cluster, content(line))?;
        if !take_line(cluster, &mut search, asked)? {
            return Ok(SearchScript::BadLine(number));
        }
        rest = after;
        number += 1;
    }
    Ok(SearchScript::Search(search))
}

// Takes a line to what was read. The answer is false where the line doesn't fit.
fn take_line(cluster: &Cluster, search: &mut Search, asked: SearchLine) -> Result<bool, OutOfMemory>
    ensures fits { IfOk result (λ taken. taken ≡ fits_search search.old.begun asked) }
    ensures begun { IfOk result
        (λ taken. IsTrue taken → search.new.begun ≡ begun_by search.old.begun asked) }
    ensures taken { IfOk result (λ taken. IsTrue taken
        → search_view search.new ≡ with_line cluster.now (search_view search.old) asked) }
{
    match asked {
        SearchLine::Plain(line) => return take_plain(search, line),
        SearchLine::May(event) => push_each(&mut search.moves, cluster, event)?,
        SearchLine::MayWait => search.moves.push(Move::Wait)?,
        SearchLine::Down(number) => search.down = number,
        SearchLine::Steps(number) => search.steps = number,
        SearchLine::Asks(question) => search.asks.push(question.into_ask())?,
    }
    search.begun = true;
    Ok(true)
}

// Takes a line as any script has it. The answer is false where it doesn't fit.
fn take_plain(search: &mut Search, line: Line) -> Result<bool, OutOfMemory>
    ensures fits { IfOk result (λ taken. taken ≡ fits_search search.old.begun (asks.Plain line)) }
    ensures begun { IfOk result (λ taken. search.new.begun ≡ search.old.begun) }
    ensures taken { IfOk result (λ taken. IsTrue taken → (c : ClusterView)
        → search_view search.new ≡ with_line c (search_view search.old) (asks.Plain line)) }
{
    match line {
        Line::Nothing => Ok(true),
        Line::Bad => Ok(false),
        Line::Asks(call) => {
            if search.begun {
                return Ok(false);
            }
            search.base.push(call)?;
            Ok(true)
        }
    }
}
