// The questions that several calls above put to a table file, 2 to 9, each asked here alone; and the table of a file that is accepted.
#![tactic(auto)]

ghost use Rattle.std.specs.Prelude.{◌≡◌, ◌++◌, ◌*◌, ◌≤◌, MatchResult, drop, length};
ghost use Rattle.lists.specs.Written.{Wrote};
ghost use Rattle.unmet.specs.Number.{number_of};
ghost use Rattle.table.specs.Layout.{table_in};
ghost use Rattle.nodes.specs.Tree.{tree_of, met10};
ghost use Rattle.index.specs.Index.{index_of};
ghost use Rattle.questions.specs.Questions.{unmet, accepting};
ghost use Rattle.questions.specs.Own.{Owned};

use nodes::Node;
use shape::Encoded;
use table::Words;
use tree::Count;
use unmet::Unmet;

// "Has the tree at most 1,024 nodes?" "Are there at most 8,191 variables?"
pub const MOST_NODES: usize = 1024;

pub const MOST_VARIABLES: usize = 8191;

// The words of a node's record; and of the records of a tree that is accepted.
const ONE_RECORD: usize = 5;

pub const RECORD_WORDS: usize = ONE_RECORD * MOST_NODES;

// The words of the longest index; and of one that most tables have room in, so that for them no call clears the longest.
pub const INDEX_WORDS: usize = 3 + 15 * MOST_NODES + MOST_NODES + MOST_VARIABLES;

pub const SMALL_INDEX: usize = 2048;

// The table of a file that is accepted, with its own records and its counts.
#[derive(Drop)]
pub struct Accepted<'a> {
    pub file: &'a [u8],
    pub table: Words,
    pub records: &'a [u64],
    // of the tree
    pub counts: Count,
    // of the formula
    pub variables: usize,
    pub ghost owned: { Owned file.now table records.now counts variables },
}

// Questions 2 to 9. The table's own records are put into words that are lent; what these hold afterwards is left free.
pub fn accept<'a>(file: &'a [u8], records: &'a mut [u64]) -> Result<Accepted<'a>, Unmet>
    requires { 5 * 1024 ≤ length records.old }
    ensures { MatchResult result (λ a. a.file.now ≡ file.now) (λ q. accepting file.now ≡ unmet (number_of q)) }
{
    let table = table::read(file)?;
    let Some(counts) = tree::build(&table, records) else {
        return Err(Unmet::Nodes);
    };
    let variables = counts.variables + (counts.slots + 1) * table::facts(&table);
    if variables > MOST_VARIABLES {
        return Err(Unmet::Variables);
    }
    Ok(Accepted {
        file,
        table,
        records: &records[..ONE_RECORD * counts.nodes],
        counts,
        variables,
    })
}

impl Accepted<'_> {
    // Question 10.
    pub fn is_own(&self, tree: &[Node]) -> bool
        requires { 1024 ≤ length tree.now }
        ensures { result ≡ met10 (table_in self.now.table) tree.now }
    {
        nodes::is_same(tree, self.records)
    }

    // The first records are the table's own; the others stay.
    pub fn lay(&self, tree: &mut [Node])
        requires { 1024 ≤ length tree.old }
        ensures { tree.new ≡ tree_of (table_in self.now.table) ++ drop (length (tree_of (table_in self.now.table))) tree.old }
    {
        nodes::scatter(tree, self.records);
    }

    // How many words its index has.
    pub fn index_words(&self) -> usize
        ensures { result ≡ length (index_of (table_in self.now.table)) }
    {
        3 + 15 * self.counts.nodes + self.counts.slots + self.counts.variables
    }

    // Writes its index, from the first place of these words on, and returns how many words that were; those behind it stay.
    pub fn put_index(&self, words: &mut [u64]) -> usize
        requires { length (index_of (table_in self.now.table)) ≤ length words.old }
        ensures { Wrote words.old 0 (index_of (table_in self.now.table)) words.new result }
    {
        indexing::fill(&self.table, self.records, self.counts, words)
    }

    // The table with its index, which is put into words that are lent; what these hold afterwards is left free.
    pub fn encoded<'b>(&'b self, words: &'b mut [u64]) -> Encoded<'b>
        requires { length (index_of (table_in self.now.table)) ≤ length words.old }
        ensures { result.table.now ≡ self.now.table }
    {
        let n = self.put_index(words);
        Encoded {
            table: &self.table,
            index: &words[..n],
        }
    }
}
