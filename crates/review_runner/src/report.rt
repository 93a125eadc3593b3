//! The result of an order.
ghost use Rattle.std.specs.Prelude.{◌≡◌};
ghost use Rattle.review_runner.specs.Output.{report_of, succeeded};

/// The program's exit status, and the bytes for standard output.
#[derive(Debug, Drop)]
pub struct Report {
    pub status: u8,
    pub out: Vec<u8>,
}

impl Report {
    /// Success, with these bytes for standard output.
    pub fn succeeded(out: Vec<u8>) -> Report
        ensures { report_of result ≡ succeeded out.items }
    {
        Report { status: 0, out }
    }
}
