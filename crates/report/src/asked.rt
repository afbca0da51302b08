//! What the command line asks for.

use records::Separator;
use words::flags::{Flags, files_after};

/// The line that says what is right after a wrong use.
pub const USAGE: &str = "usage: report [--separator , | ; | tab] [--latin1] [--total NAME,..] \
    [--group NAME] [--lenient] [--csv | --format F] [--] FILE";

/// What `--help` writes.
pub const HELP: &str = "\
usage: report [--separator , | ; | tab] [--latin1] [--total NAME,..]
    [--group NAME] [--lenient] [--csv | --format F] [--] FILE

Prints the records of a file as a table, with exact totals.

  --separator S  between fields; without it, a line `sep=;` above the header
                 tells it, or else the header
  --latin1       the file is Latin-1, not UTF-8
  --total NAMES  sum these columns; without it, those of decimals, and those
                 whose name ends in a colon
  --group NAME   subtotals for each text in this column
  --lenient      what is no number in a column that is summed counts as none
  --csv          write records, not a table
  --format F     write each record by the format in the file F, whose names are
                 those of columns, as `{item:<9}{price:>8.2}`; without totals
  --             what follows is the file
  --help         print this, if it is the only word
  --version      print the version, if it is the only word

report --total count,price --group city stock.csv
";

/// What `--version` writes.
pub const VERSION: &str = "report 0.5.0\n";

/// What the command line asks for.
#[derive(Clone, Copy, Default)]
pub struct Asked<'a> {
    pub file: &'a str,
    pub separator: Option<Separator>,
    pub is_latin1: bool,
    /// The names of the columns that are summed, with commas between them.
    pub totals: Option<&'a str>,
    /// The name of the column that groups the records.
    pub group: Option<&'a str>,
    pub is_lenient: bool,
    pub is_csv: bool,
    /// The file of the format by which each record is written.
    pub format: Option<&'a str>,
}

impl<'a> Flags<'a> for Asked<'a> {
    fn take_word(&mut self, flag: &str) -> Option<()> {
        match flag {
            "--latin1" => self.is_latin1 = true,
            "--lenient" => self.is_lenient = true,
            "--csv" => self.is_csv = true,
            _ => return None,
        }
        Some(())
    }

    fn take_value(&mut self, flag: &str, value: &'a str) -> Option<()> {
        match flag {
            "--separator" => self.separator = Some(Separator::named(value)?),
            "--total" => self.totals = Some(value),
            "--group" => self.group = Some(value),
            "--format" => self.format = Some(value),
            _ => return None,
        }
        Some(())
    }
}

impl Asked<'_> {
    /// A flag that is given beside `--format`, and does not go with it.
    pub fn beside_format(&self) -> Option<&'static str> {
        self.format?;
        if self.is_csv {
            return Some("--csv");
        }
        if self.totals.is_some() {
            return Some("--total");
        }
        self.group.map(|_| "--group")
    }
}

/// What the words ask for: flags, and then a file.
pub fn asked_by(words: &[String]) -> Option<Asked<'_>> {
    let mut asked = Asked::default();
    let [file] = files_after(&mut asked, words)? else {
        return None;
    };
    asked.file = file.as_str();
    Some(asked)
}
