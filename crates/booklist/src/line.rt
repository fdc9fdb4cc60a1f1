// The lines that the lister prints: one for each record, and one for how the reading ended.
ghost use Rattle.std.specs.Prelude.{Some};
ghost use Rattle.booklist.specs.Lines.{record_line, ending_line};

use reader::{Fields, FileFault};
use std::fmt;

// A record at its offset.
#[derive(Clone, Copy)]
pub struct RecordLine {
    pub offset: usize,
    pub fields: Fields,
}

impl fmt::Display for RecordLine {
    ghost output = { λ l. Some (record_line l.offset l.fields) };

    fn fmt<W: fmt::Write>(&self, f: &mut fmt::Formatter<W>) -> fmt::Result {
        let offset = self.offset;
        match self.fields {
            Fields::Head {
                clocks,
                locations,
                start,
            } => {
                write!(
                    f,
                    "{offset} head clocks={clocks} locations={locations} start={start}"
                )
            }
            Fields::Accepting { location } => write!(f, "{offset} accepting location={location}"),
            Fields::Limit {
                location,
                clock,
                relation,
                constant,
            } => {
                write!(
                    f,
                    "{offset} limit location={location} clock={clock} relation={relation} constant={constant}"
                )
            }
            Fields::Edge {
                source,
                target,
                zeros,
            } => {
                write!(
                    f,
                    "{offset} edge source={source} target={target} zeros={zeros}"
                )
            }
            Fields::Guard {
                clock,
                relation,
                constant,
            } => {
                write!(
                    f,
                    "{offset} guard clock={clock} relation={relation} constant={constant}"
                )
            }
            Fields::SheetEnd => write!(f, "{offset} sheet end"),
            Fields::Book {
                zone_kind,
                question,
            } => { write!(f, "{offset} book zone-kind={zone_kind} question={question}") }
            Fields::Node {
                place,
                location,
                number,
            } => {
                write!(
                    f,
                    "{offset} node place={place} location={location} number={number}"
                )
            }
            Fields::Bound {
                i,
                j,
                strict,
                constant,
            } => {
                write!(
                    f,
                    "{offset} bound i={i} j={j} strict={strict} constant={constant}"
                )
            }
            Fields::FileEnd => write!(f, "{offset} file end"),
        }
    }
}

// How the reading of a file ended.
#[derive(Clone, Copy)]
pub struct EndingLine {
    pub ending: Result<(), FileFault>,
}

impl fmt::Display for EndingLine {
    ghost output = { λ l. Some (ending_line l.ending) };

    fn fmt<W: fmt::Write>(&self, f: &mut fmt::Formatter<W>) -> fmt::Result {
        match self.ending {
            Ok(()) => write!(f, "END"),
            Err(fault) => {
                let reason = fault.ground();
                let layer = fault.layer();
                let offset = fault.offset();
                write!(f, "REFUSED {reason} {layer} {offset}")
            }
        }
    }
}
