//! Laws of the table of statements, each proved as the contract of a function that does nothing.
ghost use Rattle.std.specs.Prelude.{◌≡◌, ◌==◌, ◌||◌, not, length, IsSomeAnd, Contains};
ghost use Rattle.std.specs.List.Sorted.{IsStrictlySortedBy};
ghost use Rattle.mq_rules.specs.declared.role.Role.{Role};
ghost use Rattle.mq_rules.specs.declared.role.Role.TheVariants.{Client, Server};
ghost use Rattle.mq_rules.specs.declared.rule.Rule.{Rule};
ghost use Rattle.mq_rules.specs.Bindings.{is_among, on_releases, on_request, on_times, only_client, only_server};
ghost use Rattle.mq_rules.specs.Naming.{citation_of};
ghost use Rattle.mq_rules.specs.Rules.{all_rules, binds_end, found_line, is_further, is_on_times, needs_releases, rule_cmp};

/// Each statement has a row, which names it.
pub fn each_statement_has_its_row()
    ensures found { (rule : Rule) → IsSomeAnd (found_line rule) (λ line. line.rule ≡ rule) }
    ensures listed { (rule : Rule) → Contains all_rules rule }
{}

/// The rows ascend in the order of the statements. So no statement has two rows, and the order of
/// the rows is that of reports.
pub fn rows_ascend()
    ensures { IsStrictlySortedBy rule_cmp all_rules }
{}

/// Each statement binds the ends that the definitions list, and has a citation for exactly these.
/// L1 to L3 alone need releases, the further statements alone are judged on request, and K01 and K02
/// alone of these are on times.
pub fn each_statement_binds_its_ends()
    ensures client { (rule : Rule) → binds_end rule Client ≡ not (is_among rule only_server) }
    ensures server { (rule : Rule) → binds_end rule Server ≡ not (is_among rule only_client) }
    ensures cited { (rule : Rule) (role : Role) → not (length (citation_of rule role) == 0) ≡ binds_end rule role }
    ensures released { (rule : Rule) → needs_releases rule ≡ is_among rule on_releases }
    ensures further { (rule : Rule) → is_further rule ≡ (is_among rule on_request || is_among rule on_times) }
    ensures timed { (rule : Rule) → is_on_times rule ≡ is_among rule on_times }
{}
