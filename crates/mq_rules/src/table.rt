//! The table of the chosen statements: a row for each, in the order of reports.
ghost use Rattle.std.specs.Prelude.{◌≡◌, option_map};
ghost use Rattle.std.specs.List.{find};
ghost use Rattle.mq_rules.specs.Naming.{citation_of};
ghost use Rattle.mq_rules.specs.Rules.{all_rules, found_line, line_view, lines_of, same_rule, code_of, cites, includes, is_met, is_further, is_on_times, line_of, binds, binds_end};

use crate::role::{Role, Tested};
use crate::rule::Rule;
use crate::rule::Rule::*;
use crate::table::Ends::*;
use crate::table::Judged::*;

/// The ends that a statement binds.
#[derive(Clone, Copy, Debug)]
pub enum Ends {
    /// Only a client.
    OnlyClient,
    /// Only a server.
    OnlyServer,
    /// A client and a server.
    Both,
}

/// When a statement is judged for an end that it binds.
#[derive(Clone, Copy, Debug)]
pub enum Judged {
    /// Always.
    Always,
    /// If the log records the releases of QoS 2 messages.
    WithReleases,
    /// If the further statements are asked for.
    OnRequest,
    /// If those of them that are on times are asked for.
    OnTimes,
}

/// A statement, its code, the ends that it binds, its citation of MQTT 5.0 for a client and for a
/// server (empty for an end that it doesn't bind), and when it is judged.
pub type Row = (Rule, &'static str, Ends, &'static str, &'static str, Judged);

/// Each statement's row, in the order of reports.
pub const TABLE: [Row; 102] = [
    (W01, "W01", Both, "MQTT-2.1.3-1", "MQTT-2.1.3-1", Always),
    (W02, "W02", Both, "sec-2.1.2", "sec-2.1.2", Always),
    (W03, "W03", Both, "MQTT-1.5.5-1", "MQTT-1.5.5-1", Always),
    (W04, "W04", Both, "MQTT-1.5.4-1", "MQTT-1.5.4-1", Always),
    (W05, "W05", Both, "MQTT-1.5.4-2", "MQTT-1.5.4-2", Always),
    (W06, "W06", Both, "sec-2.1.4", "sec-2.1.4", Always),
    (W07, "W07", Both, "MQTT-3.3.1-4", "MQTT-3.3.1-4", Always),
    (W08, "W08", Both, "MQTT-3.3.1-2", "MQTT-3.3.1-2", Always),
    (W09, "W09", Both, "sec-2.2.1", "sec-2.2.1", Always),
    (W10, "W10", Both, "sec-2.2.2.2", "sec-2.2.2.2", Always),
    (W11, "W11", Both, "sec-2.2.2.2", "sec-2.2.2.2", Always),
    (W12, "W12", Both, "sec-2.2.2.2", "sec-2.2.2.2", Always),
    (W13, "W13", Both, "sec-2.4", "sec-2.4", Always),
    (W14, "W14", Both, "sec-3.3.2", "sec-3.3.2", Always),
    (W15, "W15", Both, "sec-4.7", "sec-4.7", Always),
    (
        W16,
        "W16",
        Both,
        "MQTT-3.8.3-2,MQTT-3.10.3-2",
        "MQTT-3.8.3-2,MQTT-3.10.3-2",
        Always,
    ),
    (W17, "W17", Both, "sec-3.8.3", "sec-3.8.3", Always),
    (W18, "W18", Both, "sec-3.1.2", "sec-3.1.2", Always),
    (W19, "W19", Both, "sec-3.1.2", "sec-3.1.2", Always),
    (W20, "W20", Both, "MQTT-3.2.2-1", "MQTT-3.2.2-1", Always),
    (W21, "W21", Both, "sec-3.3.2", "sec-3.3.2", Always),
    (C01, "C01", Both, "sec-2.1.2", "sec-2.1.2", Always),
    (C02, "C02", OnlyClient, "MQTT-3.1.0-1", "", Always),
    (C03, "C03", OnlyClient, "sec-3.1", "", Always),
    (C04, "C04", OnlyServer, "", "sec-3.2", Always),
    (C05, "C05", OnlyServer, "", "MQTT-3.2.0-1", Always),
    (C06, "C06", OnlyServer, "", "MQTT-3.2.0-2", Always),
    (C07, "C07", OnlyServer, "", "MQTT-3.2.2-2", Always),
    (C08, "C08", OnlyServer, "", "MQTT-3.2.2-3", Always),
    (C09, "C09", OnlyServer, "", "MQTT-3.2.2-6", Always),
    (C10, "C10", OnlyServer, "", "MQTT-3.2.2-16", Always),
    (C11, "C11", Both, "MQTT-3.14.4-1", "MQTT-3.14.4-1", Always),
    (C12, "C12", OnlyServer, "", "MQTT-3.2.2-7", Always),
    (C13, "C13", OnlyClient, "MQTT-3.2.2-4", "", Always),
    (C14, "C14", Both, "MQTT-3.2.2-15", "MQTT-3.1.2-24", Always),
    (C15, "C15", Both, "MQTT-3.2.2-17", "MQTT-3.1.2-26", Always),
    (C16, "C16", Both, "sec-3.3.2", "sec-3.3.2", Always),
    (C17, "C17", OnlyClient, "MQTT-3.2.2-11", "", Always),
    (C18, "C18", OnlyClient, "MQTT-3.3.4-6", "", Always),
    (C19, "C19", OnlyServer, "", "MQTT-3.14.2-2", Always),
    (C20, "C20", OnlyClient, "sec-3.14.2", "", Always),
    (C21, "C21", OnlyServer, "", "MQTT-3.1.2-29", Always),
    (C22, "C22", OnlyServer, "", "MQTT-3.1.2-28", Always),
    (
        C23,
        "C23",
        Both,
        "MQTT-3.14.4-2",
        "MQTT-3.14.4-2,MQTT-3.2.2-7",
        Always,
    ),
    (S01, "S01", Both, "MQTT-2.2.1-3", "MQTT-2.2.1-4", Always),
    (
        S02,
        "S02",
        Both,
        "MQTT-4.3.2-2,MQTT-4.3.3-2",
        "MQTT-4.3.2-2,MQTT-4.3.3-2",
        Always,
    ),
    (S03, "S03", Both, "MQTT-4.4.0-1", "MQTT-4.4.0-1", Always),
    (S04, "S04", Both, "MQTT-4.3.3-6", "MQTT-4.3.3-6", Always),
    (S05, "S05", OnlyClient, "MQTT-4.6.0-1", "", Always),
    (S06, "S06", Both, "MQTT-4.4.0-1", "MQTT-4.4.0-1", Always),
    (S07, "S07", Both, "MQTT-4.9.0-2", "MQTT-4.9.0-2", Always),
    (E1A, "E1A", Both, "MQTT-2.2.1-5", "MQTT-2.2.1-5", Always),
    (E1R, "E1R", Both, "MQTT-4.3.2-4", "MQTT-4.3.2-4", Always),
    (E1O, "E1O", OnlyClient, "MQTT-4.6.0-2", "", Always),
    (E2A, "E2A", Both, "MQTT-2.2.1-5", "MQTT-2.2.1-5", Always),
    (E2R, "E2R", Both, "MQTT-4.3.3-8", "MQTT-4.3.3-8", Always),
    (E2O, "E2O", OnlyClient, "MQTT-4.6.0-3", "", Always),
    (E3A, "E3A", Both, "MQTT-2.2.1-5", "MQTT-2.2.1-5", Always),
    (E3R, "E3R", Both, "MQTT-4.3.3-4", "MQTT-4.3.3-4", Always),
    (E3O, "E3O", OnlyClient, "MQTT-4.6.0-4", "", Always),
    (E4A, "E4A", Both, "MQTT-2.2.1-5", "MQTT-2.2.1-5", Always),
    (E4R, "E4R", Both, "MQTT-4.3.3-11", "MQTT-4.3.3-11", Always),
    (E5A, "E5A", OnlyServer, "", "MQTT-2.2.1-6", Always),
    (E5R, "E5R", OnlyServer, "", "MQTT-3.8.4-1", Always),
    (E6A, "E6A", OnlyServer, "", "MQTT-2.2.1-6", Always),
    (E6R, "E6R", OnlyServer, "", "MQTT-3.10.4-4", Always),
    (E7R, "E7R", OnlyServer, "", "MQTT-3.12.4-1", Always),
    (L1, "L1", Both, "sec-4.3.3", "sec-4.3.3", WithReleases),
    (
        L2,
        "L2",
        Both,
        "MQTT-4.3.3-10",
        "MQTT-4.3.3-10",
        WithReleases,
    ),
    (L3, "L3", Both, "sec-4.3.3", "sec-4.3.3", WithReleases),
    (B01, "B01", OnlyServer, "", "MQTT-3.3.2-3", Always),
    (B02, "B02", OnlyServer, "", "MQTT-3.8.4-8", Always),
    (B03, "B03", OnlyServer, "", "MQTT-3.8.4-6", Always),
    (B04, "B04", OnlyServer, "", "sec-3.11.3", Always),
    (B05, "B05", OnlyServer, "", "sec-3.9.3", OnRequest),
    (B06, "B06", OnlyServer, "", "MQTT-3.10.4-1", OnRequest),
    (B07, "B07", OnlyServer, "", "sec-3.11.3", OnRequest),
    (B08, "B08", OnlyServer, "", "MQTT-3.3.2-3", OnRequest),
    (
        B09,
        "B09",
        OnlyServer,
        "",
        "MQTT-3.8.4-8,MQTT-4.8.2-3",
        OnRequest,
    ),
    (P01, "P01", OnlyServer, "", "sec-3.3.4", OnRequest),
    (P02, "P02", OnlyServer, "", "MQTT-3.3.4-3", OnRequest),
    (
        R01,
        "R01",
        OnlyServer,
        "",
        "MQTT-3.3.1-11,MQTT-3.3.1-12",
        OnRequest,
    ),
    (R02, "R02", OnlyServer, "", "sec-4.8.2", OnRequest),
    (F01, "F01", OnlyClient, "MQTT-3.2.2-14", "", OnRequest),
    (F02, "F02", OnlyClient, "sec-3.2.2.3.11", "", OnRequest),
    (F03, "F03", OnlyClient, "sec-3.2.2.3.12", "", OnRequest),
    (F04, "F04", OnlyClient, "sec-3.2.2.3.13", "", OnRequest),
    (F05, "F05", OnlyServer, "", "MQTT-3.2.2-12", OnRequest),
    (F06, "F06", OnlyServer, "", "MQTT-3.2.2-13", OnRequest),
    (
        V03,
        "V03",
        OnlyClient,
        "MQTT-4.8.2-1,MQTT-4.8.2-2",
        "",
        OnRequest,
    ),
    (V04, "V04", OnlyClient, "MQTT-3.8.3-4", "", OnRequest),
    (
        V06,
        "V06",
        Both,
        "sec-3.14.2.1,sec-3.4.2.1",
        "sec-3.14.2.1",
        OnRequest,
    ),
    (C24, "C24", OnlyServer, "", "MQTT-3.1.4-5", OnRequest),
    (D01, "D01", OnlyServer, "", "MQTT-4.13.1-1", OnRequest),
    (D02, "D02", OnlyServer, "", "MQTT-3.1.0-2", OnRequest),
    (D03, "D03", OnlyServer, "", "MQTT-4.13.1-1", OnRequest),
    (D05, "D05", OnlyServer, "", "sec-3.3.4", OnRequest),
    (A01, "A01", OnlyClient, "MQTT-3.1.2-30", "", OnRequest),
    (
        A02,
        "A02",
        Both,
        "MQTT-4.12.0-7",
        "MQTT-4.12.0-6",
        OnRequest,
    ),
    (
        A03,
        "A03",
        Both,
        "MQTT-4.12.0-5,MQTT-4.12.1-1",
        "MQTT-4.12.0-5",
        OnRequest,
    ),
    (
        K01,
        "K01",
        OnlyClient,
        "MQTT-3.1.2-20,MQTT-3.2.2-21",
        "",
        OnTimes,
    ),
    (
        K02,
        "K02",
        OnlyServer,
        "",
        "MQTT-3.1.2-22,MQTT-3.2.2-22",
        OnTimes,
    ),
];

/// The statements, in the order of reports.
const RULES: [Rule; 102] = [
    Rule::W01,
    Rule::W02,
    Rule::W03,
    Rule::W04,
    Rule::W05,
    Rule::W06,
    Rule::W07,
    Rule::W08,
    Rule::W09,
    Rule::W10,
    Rule::W11,
    Rule::W12,
    Rule::W13,
    Rule::W14,
    Rule::W15,
    Rule::W16,
    Rule::W17,
    Rule::W18,
    Rule::W19,
    Rule::W20,
    Rule::W21,
    Rule::C01,
    Rule::C02,
    Rule::C03,
    Rule::C04,
    Rule::C05,
    Rule::C06,
    Rule::C07,
    Rule::C08,
    Rule::C09,
    Rule::C10,
    Rule::C11,
    Rule::C12,
    Rule::C13,
    Rule::C14,
    Rule::C15,
    Rule::C16,
    Rule::C17,
    Rule::C18,
    Rule::C19,
    Rule::C20,
    Rule::C21,
    Rule::C22,
    Rule::C23,
    Rule::S01,
    Rule::S02,
    Rule::S03,
    Rule::S04,
    Rule::S05,
    Rule::S06,
    Rule::S07,
    Rule::E1A,
    Rule::E1R,
    Rule::E1O,
    Rule::E2A,
    Rule::E2R,
    Rule::E2O,
    Rule::E3A,
    Rule::E3R,
    Rule::E3O,
    Rule::E4A,
    Rule::E4R,
    Rule::E5A,
    Rule::E5R,
    Rule::E6A,
    Rule::E6R,
    Rule::E7R,
    Rule::L1,
    Rule::L2,
    Rule::L3,
    Rule::B01,
    Rule::B02,
    Rule::B03,
    Rule::B04,
    Rule::B05,
    Rule::B06,
    Rule::B07,
    Rule::B08,
    Rule::B09,
    Rule::P01,
    Rule::P02,
    Rule::R01,
    Rule::R02,
    Rule::F01,
    Rule::F02,
    Rule::F03,
    Rule::F04,
    Rule::F05,
    Rule::F06,
    Rule::V03,
    Rule::V04,
    Rule::V06,
    Rule::C24,
    Rule::D01,
    Rule::D02,
    Rule::D03,
    Rule::D05,
    Rule::A01,
    Rule::A02,
    Rule::A03,
    Rule::K01,
    Rule::K02,
];

// The row of a statement among these, if it has one.
fn found(table: &[Row], rule: Rule) -> Option<Row>
    ensures { result ≡ find (λ row. same_rule row.0 rule) table.now }
{
    table
        .iter()
        .copied()
        .find(|(chosen, _, _, _, _, _)| *chosen == rule)
}

// The row of a statement in a table, as contracts see it: its texts are lists of bytes.
fn found_in(table: &[Row], rule: Rule) -> Option<Row>
    ensures { option_map line_view result ≡ find (λ line. same_rule line.rule rule) (lines_of table.now) }
{
    found(table, rule)
}

// The row of a statement, if it has one.
#[tactic(auto, unfolding(crate::specs::Rules::found_line, crate::specs::Rules::lines))]
fn find_row(rule: Rule) -> Option<Row>
    ensures { option_map line_view result ≡ found_line rule }
{
    found_in(&TABLE, rule)
}

// The citation for this end in a statement's row.
#[tactic(auto, unfolding(crate::specs::Rules::line_of))]
fn citation_in_row(rule: Rule, role: Role) -> &'static str
    ensures { result.now ≡ cites role (line_of rule) }
{
    match find_row(rule) {
        Some((_, _, _, client, server, _)) => match role {
            Role::Client => client,
            Role::Server => server,
        },
        None => "",
    }
}

impl Ends {
    // Whether this end is among them.
    fn include(self, role: Role) -> bool
        ensures { result ≡ includes self role }
    {
        match (self, role) {
            (Ends::OnlyClient | Ends::Both, Role::Client) => true,
            (Ends::OnlyServer | Ends::Both, Role::Server) => true,
            (Ends::OnlyClient, Role::Server) | (Ends::OnlyServer, Role::Client) => false,
        }
    }
}

impl Judged {
    // Whether a statement that is judged so is judged of this end.
    fn is_met(self, tested: Tested) -> bool
        ensures { result ≡ is_met self tested }
    {
        match self {
            Judged::Always => true,
            Judged::WithReleases => tested.releases,
            Judged::OnRequest => tested.further.on_request,
            Judged::OnTimes => tested.further.with_times,
        }
    }
}

impl Rule {
    /// All statements, in the order of reports.
    #[tactic(auto, unfolding(crate::specs::Rules::lines))]
    pub fn all() -> &'static [Rule]
        ensures { result.now ≡ all_rules }
    {
        &RULES
    }

    /// The statement's code, by which reports name it.
    #[tactic(auto, unfolding(crate::specs::Rules::line_of))]
    pub fn code(self) -> &'static str
        ensures { result.now ≡ code_of self }
    {
        match find_row(self) {
            Some((_, code, _, _, _, _)) => code,
            None => "",
        }
    }

    /// The statement's citation of MQTT 5.0 for this end: the numbers of conformance statements,
    /// separated by commas, or the section, for example `sec-2.4`. It is empty if the statement
    /// doesn't bind this end.
    #[tactic(auto, using(crate::proofs::TableLaws::row_cites))]
    pub fn citation(self, role: Role) -> &'static str
        ensures { result.now ≡ citation_of self role }
    {
        citation_in_row(self, role)
    }

    /// Whether the statement binds this end. Some statements are judged only if the log records
    /// releases: see `is_judged`.
    #[tactic(auto, unfolding(crate::specs::Rules::line_of))]
    pub fn binds(self, role: Role) -> bool
        ensures { result ≡ binds_end self role }
    {
        match find_row(self) {
            Some((_, _, ends, _, _, _)) => ends.include(role),
            None => Both.include(role),
        }
    }

    // When the statement is judged.
    #[tactic(auto, unfolding(crate::specs::Rules::line_of))]
    fn judged(self) -> Judged
        ensures { result ≡ (line_of self).judged }
    {
        match find_row(self) {
            Some((_, _, _, _, _, judged)) => judged,
            None => Always,
        }
    }

    /// Whether the statement is a further one, which is judged only if it is asked for.
    pub fn is_further(self) -> bool
        ensures { result ≡ is_further self }
    {
        matches!(self.judged(), OnRequest | OnTimes)
    }

    /// Whether the statement is a further one on times.
    pub fn is_on_times(self) -> bool
        ensures { result ≡ is_on_times self }
    {
        matches!(self.judged(), OnTimes)
    }

    /// Whether the statement is judged for this end: it binds the end; if it needs releases the log
    /// records them; and if it is a further one, or one of those on times, these are asked for.
    pub fn is_judged(self, tested: Tested) -> bool
        ensures { result ≡ binds self tested }
    {
        self.binds(tested.role) && self.judged().is_met(tested)
    }
}
