//! The report of a run over a table of symbols and a table of strings: six lines of text.
#![tactic(auto)]

ghost use Rattle.std.specs.Prelude.{◌≡◌, ◌≤◌, ◌++◌, OnOk, IfOk, string_bytes};
ghost use Rattle.table_report.specs.Report.{symbols_line, strings_line, spread_line, symbol_log_line, string_log_line, report_lines};

use std::alloc::{AllocError, Global};

/// What a table holds at the end of a run.
#[derive(Clone, Copy, Debug, PartialEq, Eq)]
pub struct Statistics2 {
    /// How many entries are live.
    pub live: u32,
    /// How many references to live entries are held.
    pub references: u64,
    /// How many buckets the table has: `report_text` requires at least 1.
    pub buckets: u32,
    /// How many entries the longest chain of a bucket holds.
    pub longest: u32,
}

/// How often each outcome came as the names were interned, and how many references were given back.
#[derive(Clone, Copy, Debug, PartialEq, Eq)]
pub struct SymbolCounts {
    /// Names that got a new entry.
    pub created: u64,
    /// Names whose entry was live already: one more reference to it.
    pub taken: u64,
    /// References that were given back.
    pub dropped: u64,
}

/// How often each outcome came as the literals were interned, and how many entries were killed.
#[derive(Clone, Copy, Debug, PartialEq, Eq)]
pub struct StringCounts {
    /// Literals that got a new entry.
    pub created: u64,
    /// Literals whose entry was live already.
    pub found: u64,
    /// Entries that were killed.
    pub killed: u64,
}

/// What a run tells: the numbers of its names and literals, both tables, and what was done to each.
#[derive(Clone, Copy, Debug, PartialEq, Eq)]
pub struct Report {
    /// How many names the input holds, each as often as it stands there.
    pub names: u64,
    /// The table of the names.
    pub symbols: Statistics2,
    /// How many literals the input holds, each as often as it stands there.
    pub literals: u64,
    /// The table of the literals.
    pub strings: Statistics2,
    /// What was done to the table of the names.
    pub symbol_log: SymbolCounts,
    /// What was done to the table of the literals.
    pub string_log: StringCounts,
}

/// The six lines of a report, each ended by a newline. `average` is the number of live entries
/// divided by that of buckets, without the remainder, which is `rest`.
#[tactic(auto, unfolding(crate::specs::Report::report_lines))]
pub fn report_text(alloc: Global, report: &Report) -> Result<Vec<u8>, AllocError>
    requires symbol_buckets { 1 ≤ report.now.symbols.buckets }
    requires string_buckets { 1 ≤ report.now.strings.buckets }
    ensures text { IfOk result (λ text. text.items ≡ report_lines report.now) }
{
    let mut text = String::new(alloc);
    push_symbols(&mut text, report.names, &report.symbols)?;
    push_spread(&mut text, "symbols", &report.symbols)?;
    push_strings(&mut text, report.literals, &report.strings)?;
    push_spread(&mut text, "strings", &report.strings)?;
    push_symbol_log(&mut text, &report.symbol_log)?;
    push_string_log(&mut text, &report.string_log)?;
    Ok(text.into_bytes())
}

#[tactic(auto, unfolding(crate::specs::Report::symbols_line))]
fn push_symbols(text: &mut String, names: u64, symbols: &Statistics2) -> Result<(), AllocError>
    ensures { OnOk result
        (string_bytes text.new ≡ string_bytes text.old ++ symbols_line names symbols.now) }
{
    writeln!(
        text,
        "symbols names={names} live={} references={}",
        symbols.live, symbols.references
    )
}

#[tactic(auto, unfolding(crate::specs::Report::strings_line))]
fn push_strings(text: &mut String, literals: u64, strings: &Statistics2) -> Result<(), AllocError>
    ensures { OnOk result
        (string_bytes text.new ≡ string_bytes text.old ++ strings_line literals strings.now) }
{
    writeln!(text, "strings literals={literals} live={}", strings.live)
}

#[tactic(auto, unfolding(crate::specs::Report::spread_line))]
fn push_spread(text: &mut String, table: &str, statistics: &Statistics2) -> Result<(), AllocError>
    requires { 1 ≤ statistics.now.buckets }
    ensures { OnOk result
        (string_bytes text.new ≡ string_bytes text.old ++ spread_line table.now statistics.now) }
{
    let average = statistics.live / statistics.buckets;
    let rest = statistics.live % statistics.buckets;
    writeln!(
        text,
        "{table} buckets={} longest={} average={average} rest={rest}",
        statistics.buckets, statistics.longest
    )
}

#[tactic(auto, unfolding(crate::specs::Report::symbol_log_line))]
fn push_symbol_log(text: &mut String, log: &SymbolCounts) -> Result<(), AllocError>
    ensures { OnOk result
        (string_bytes text.new ≡ string_bytes text.old ++ symbol_log_line log.now) }
{
    writeln!(
        text,
        "symbol log created={} taken={} dropped={}",
        log.created, log.taken, log.dropped
    )
}

#[tactic(auto, unfolding(crate::specs::Report::string_log_line))]
fn push_string_log(text: &mut String, log: &StringCounts) -> Result<(), AllocError>
    ensures { OnOk result
        (string_bytes text.new ≡ string_bytes text.old ++ string_log_line log.now) }
{
    writeln!(
        text,
        "string log created={} found={} killed={}",
        log.created, log.found, log.killed
    )
}

#[cfg(test)]
mod tests {
    use super::*;
    use std::test::Fail;

    #[test]
    fn writes_six_lines(rt: HostRuntime) -> Result<(), Fail> {
        let report = Report {
            names: 3,
            symbols: Statistics2 {
                live: 2,
                references: 3,
                buckets: 8,
                longest: 1,
            },
            literals: 0,
            strings: Statistics2 {
                live: 0,
                references: 0,
                buckets: 8,
                longest: 0,
            },
            symbol_log: SymbolCounts {
                created: 2,
                taken: 1,
                dropped: 0,
            },
            string_log: StringCounts {
                created: 0,
                found: 0,
                killed: 0,
            },
        };
        let want = b"symbols names=3 live=2 references=3\n\
            symbols buckets=8 longest=1 average=0 rest=2\n\
            strings literals=0 live=0\n\
            strings buckets=8 longest=0 average=0 rest=0\n\
            symbol log created=2 taken=1 dropped=0\n\
            string log created=0 found=0 killed=0\n";
        assert_eq!(rt;
            report_text(rt.alloc(), &report)?.as_slice(),
            want.as_slice()
        );
        Ok(())
    }

    #[test]
    fn writes_large_numbers(rt: HostRuntime) -> Result<(), Fail> {
        let most = u64::MAX;
        let report = Report {
            names: most,
            symbols: Statistics2 {
                live: 4294967295,
                references: most,
                buckets: 4096,
                longest: 9,
            },
            literals: most,
            strings: Statistics2 {
                live: 17,
                references: 0,
                buckets: 5,
                longest: 6,
            },
            symbol_log: SymbolCounts {
                created: most,
                taken: 12,
                dropped: 345,
            },
            string_log: StringCounts {
                created: 6789,
                found: most,
                killed: 10,
            },
        };
        let want =
            b"symbols names=18446744073709551615 live=4294967295 references=18446744073709551615\n\
            symbols buckets=4096 longest=9 average=1048575 rest=4095\n\
            strings literals=18446744073709551615 live=17\n\
            strings buckets=5 longest=6 average=3 rest=2\n\
            symbol log created=18446744073709551615 taken=12 dropped=345\n\
            string log created=6789 found=18446744073709551615 killed=10\n";
        assert_eq!(rt;
            report_text(rt.alloc(), &report)?.as_slice(),
            want.as_slice()
        );
        Ok(())
    }
}
