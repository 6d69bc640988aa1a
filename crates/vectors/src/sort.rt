// The sorts of vectors. A file is named after the sort of its vectors.
use std::fmt;

#[derive(Clone, Copy)]
pub enum Sort {
    Numbers,
    Images,
    Tallies,
    Runs,
    Listings,
    Answers,
}

impl Sort {
    // The sort of the vectors of a file, by its name.
    pub fn of_file(name: &[u8]) -> Option<Sort> {
        match name {
            b"numbers" => Some(Sort::Numbers),
            b"images" => Some(Sort::Images),
            b"tallies" => Some(Sort::Tallies),
            b"runs" => Some(Sort::Runs),
            b"listings" => Some(Sort::Listings),
            b"answers" => Some(Sort::Answers),
            _ => None,
        }
    }
}

// What the vectors of a sort are called in the report.
impl fmt::Display for Sort {
    fn fmt<W: fmt::Write>(&self, f: &mut fmt::Formatter<W>) -> fmt::Result {
        f.write_str(match self {
            Sort::Numbers => "vectors",
            Sort::Images => "images",
            Sort::Tallies => "tallies",
            Sort::Runs => "runs",
            Sort::Listings => "listings",
            Sort::Answers => "answers",
        })
    }
}
