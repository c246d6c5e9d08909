//! The lines of terms.

ghost use Rattle.std.specs.Prelude.{◌≡◌, drop};
ghost use Rattle.rh_cluster_lint.specs.Lines.{lines_seen, line_at, node_line, app_line, word_line};

use rh_findings::{Start, line_of_word};
use rh_model::{App, Node};

/// Where the terms of a text stand.
#[derive(Clone, Copy)]
pub struct Lines<'a> {
    pub text: &'a [u8],
    /// Where each term begins.
    pub starts: &'a [Start],
    /// Which terms describe nodes, in their order.
    pub nodes: &'a [usize],
    /// And which applications.
    pub apps: &'a [usize],
}

// The text from a place on.
fn text_behind(at: usize, text: &[u8]) -> &[u8]
    ensures { result.now ≡ drop at text.now }
{
    if at < text.len() { &text[at..] } else { &[] }
}

impl Lines<'_> {
    /// The line on which the term at a place begins.
    pub fn line_at(&self, place: usize) -> Option<u64>
        ensures { result ≡ line_at (lines_seen self.now) place }
    {
        let start = self.starts.get(place)?;
        Some(start.line as u64)
    }

    /// The line on which the term of a node begins.
    pub fn node_line(&self, node: Node) -> Option<u64>
        ensures { result ≡ node_line (lines_seen self.now) node }
    {
        let place = self.nodes.get(node.0 as usize).copied()?;
        self.line_at(place)
    }

    /// The line on which the term of an application begins.
    pub fn app_line(&self, app: App) -> Option<u64>
        ensures { result ≡ app_line (lines_seen self.now) app }
    {
        let place = self.apps.get(app.0 as usize).copied()?;
        self.line_at(place)
    }

    /// The line of a word in the term at a place: the first from the term's own on where it stands as a word, and else the term's.
    pub fn word_line(&self, place: usize, word: &str) -> Option<u64>
        ensures { result ≡ word_line (lines_seen self.now) place word.now }
    {
        let start = self.starts.get(place).copied()?;
        let line = line_of_word(
            start.line,
            word.as_bytes(),
            text_behind(start.at, self.text),
        );
        Some(line.unwrap_or(start.line as u64))
    }
}
