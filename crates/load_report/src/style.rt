//! How a report is laid out.

ghost use Rattle.std.specs.Prelude.{◌≡◌};
ghost use Rattle.load_report.specs.Text.{head_line};

/// How a report is written.
#[derive(Clone, Copy, Debug, PartialEq, Eq)]
pub struct Style {
    /// Whether it has comma-separated values, and not a table.
    pub csv: bool,
    /// Whether it lists the elements that move, in place of the figures.
    pub moves: bool,
}

impl Style {
    /// The line of the names of the columns, with which a report begins.
    pub fn head(self) -> &'static str
        ensures value { result.now ≡ head_line self }
    {
        match (self.csv, self.moves) {
            (false, false) => {
                "placement procs elements           max               avg imbalance         least  moved  \
                 moved%       bytes  bytes% empty  idle           min      heaviest         bound deviation   \
                 excess%       leave       enter       step file\n"
            }
            (false, true) => "procs element  from    to    bytes file\n",
            (true, false) => {
                "file,placement,procs,elements,max,avg,imbalance,least,moved,moved_percent,bytes,\
                 bytes_percent,empty,idle,min,heaviest,bound,deviation,excess_percent,leave,enter,step\n"
            }
            (true, true) => "file,procs,element,from,to,bytes\n",
        }
    }
}
