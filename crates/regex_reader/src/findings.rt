ghost use Rattle.std.specs.Prelude.{◌≡◌, ◌||◌, [], ◌∷◌, false, not, nat_lt, map};
ghost use Rattle.std.specs.List.{list_any};
ghost use Rattle.regex_ast.specs.Terms.{term, terms_of, links_of, contexts_of, steps_by, mappings_of, groups_of};
ghost use Rattle.regex_reader.specs.Limits.{most_in_rules};
ghost use Rattle.regex_reader.specs.Found.{found_in, either};
ghost use Rattle.regex_reader.specs.Tests.{nodes, each_of, each_link, each_context, each_step, each_mapping, each_group, is_high, mappings_in, contexts_in};

use regex_ast::{Context, Expr, Group, Link, Mapping, Raw, Step, Suffix};

/// The highest number of a power.
const HIGHEST_POWER: u32 = 255;

/// The most mappings, and the most contexts, of one set of rules.
const MOST_IN_RULES: usize = 64;

/// What is found in the parts of an expression.
#[derive(Clone, Copy, Debug, PartialEq, Eq)]
pub struct Findings {
    /// `.#.` outside of a context.
    pub misplaced_edge: bool,
    /// A power `^n` with a number above 255.
    pub high_power: bool,
    /// A set of rules or a directed rule with more than 64 mappings or contexts, or more than 64 contexts of one `=>`.
    pub large_rule: bool,
}

impl Findings {
    /// What is found where there is nothing.
    pub fn none() -> Self
        ensures { result ≡ found_in [] }
    {
        Findings {
            misplaced_edge: false,
            high_power: false,
            large_rule: false,
        }
    }

    /// What an edge is, which stands inside a context or doesn't.
    fn of_edge(inside: bool) -> Self
        ensures { result ≡ record { misplaced_edge = not inside; high_power = false; large_rule = false } }
    {
        Findings {
            misplaced_edge: !inside,
            high_power: false,
            large_rule: false,
        }
    }

    /// What is found in suffixes.
    fn of_suffixes(suffixes: &[Suffix]) -> Self
        ensures { result ≡ record { misplaced_edge = false; high_power = list_any is_high suffixes.now; large_rule = false } }
    {
        Findings {
            misplaced_edge: false,
            high_power: has_high_power(suffixes),
            large_rule: false,
        }
    }

    /// What a set of rules is, which is too large or isn't.
    fn of_size(large: bool) -> Self
        ensures { result ≡ record { misplaced_edge = false; high_power = false; large_rule = large } }
    {
        Findings {
            misplaced_edge: false,
            high_power: false,
            large_rule: large,
        }
    }

    /// What one of the two finds.
    pub fn or(self, other: Self) -> Self
        ensures { result ≡ either self other }
    {
        Findings {
            misplaced_edge: self.misplaced_edge || other.misplaced_edge,
            high_power: self.high_power || other.high_power,
            large_rule: self.large_rule || other.large_rule,
        }
    }
}

/// What is found in an expression, which stands inside a context or doesn't.
#[cycle(walk)]
pub fn find_in_expression(expr: &Expr<Raw>, inside: bool) -> Findings
    ensures { result ≡ found_in (nodes inside (term expr.now)) }
{
    match expr {
        Expr::Empty => Findings::none(),
        Expr::Any => Findings::none(),
        Expr::Atom(_) => Findings::none(),
        Expr::Letters(_) => Findings::none(),
        Expr::Edge => Findings::of_edge(inside),
        Expr::Group(inner) => find_in_expression(inner, inside),
        Expr::Maybe(inner) => find_in_expression(inner, inside),
        Expr::NotOne(_, inner) => find_in_expression(inner, inside),
        Expr::Cross(upper, lower) => find_in_expression(upper, inside).or(find_in_expression(
            lower, inside,
        )),
        Expr::Suffixed(inner, suffixes) => {
            Findings::of_suffixes(suffixes).or(find_in_expression(inner, inside))
        }
        Expr::Prefixed(_, inner) => find_in_expression(inner, inside),
        Expr::Ignore(operands) => find_in_each(operands, inside),
        Expr::Concat(operands) => find_in_each(operands, inside),
        Expr::Chain(first, links) => find_in_expression(first, inside).or(find_in_links(
            links, inside,
        )),
        Expr::Only(centre, contexts) => Findings::of_size(contexts.len() > MOST_IN_RULES).or(
            find_in_expression(centre, inside).or(find_in_contexts(contexts)),
        ),
        Expr::Rules(rules) => {
            Findings::of_size(are_large(&rules.groups)).or(find_in_groups(&rules.groups, inside))
        }
        Expr::Directed(rule) => Findings::of_size(is_large(
            rule.maps.len(),
            rule.contexts.len(),
        )).or(find_in_mappings(&rule.maps, inside).or(find_in_contexts(&rule.contexts))),
        Expr::Steps(first, steps) => find_in_expression(first, inside).or(find_in_steps(
            steps, inside,
        )),
    }
}

/// What is found in expressions.
#[cycle(walk)]
fn find_in_each(operands: &[Expr<Raw>], inside: bool) -> Findings
    ensures { result ≡ found_in (each_of inside (terms_of (map term operands.now))) }
{
    let mut found = Findings::none();
    'operands: for operand in operands {
        found = found.or(find_in_expression(operand, inside));
    }
    found
}

/// What is found in the operands of a row.
#[cycle(walk)]
fn find_in_links(links: &[Link<Raw>], inside: bool) -> Findings
    ensures { result ≡ found_in (each_link inside (links_of links.now)) }
{
    let mut found = Findings::none();
    'links: for link in links {
        match link {
            Link::Or(operand) | Link::And(operand) | Link::Less(operand) => {
                found = found.or(find_in_expression(operand, inside));
            }
        }
    }
    found
}

/// What is found in contexts.
#[cycle(walk)]
fn find_in_contexts(contexts: &[Context<Raw>]) -> Findings
    ensures { result ≡ found_in (each_context (contexts_of contexts.now)) }
{
    let mut found = Findings::none();
    'contexts: for context in contexts {
        let both = find_in_expression(&context.left, true).or(find_in_expression(
            &context.right,
            true,
        ));
        found = found.or(both);
    }
    found
}

/// What is found in the operands of a row of `.x.` and `.o.`.
#[cycle(walk)]
fn find_in_steps(steps: &[Step<Raw>], inside: bool) -> Findings
    ensures { result ≡ found_in (each_step inside (steps_by steps.now)) }
{
    let mut found = Findings::none();
    'steps: for step in steps {
        match step {
            Step::CrossWith(operand) | Step::Then(operand) => {
                found = found.or(find_in_expression(operand, inside));
            }
        }
    }
    found
}

/// What is found in the groups of a set of rules.
#[cycle(walk)]
fn find_in_groups(groups: &[Group<Raw>], inside: bool) -> Findings
    ensures { result ≡ found_in (each_group inside (groups_of groups.now)) }
{
    let mut found = Findings::none();
    'groups: for group in groups {
        found = found.or(find_in_mappings(&group.maps, inside).or(find_in_contexts(
            &group.contexts,
        )));
    }
    found
}

/// What is found in mappings.
#[cycle(walk)]
fn find_in_mappings(mappings: &[Mapping<Raw>], inside: bool) -> Findings
    ensures { result ≡ found_in (each_mapping inside (mappings_of mappings.now)) }
{
    let mut found = Findings::none();
    'mappings: for mapping in mappings {
        found = found.or(find_in_mapping(mapping, inside));
    }
    found
}

/// What is found in a mapping.
#[cycle(walk)]
fn find_in_mapping(mapping: &Mapping<Raw>, inside: bool) -> Findings
    ensures { result ≡ found_in (each_mapping inside (mappings_of (mapping.now ∷ []))) }
{
    match mapping {
        Mapping::Plain { centre, result: by } => {
            find_in_expression(centre, inside).or(find_in_expression(by, inside))
        }
        Mapping::Markup {
            centre,
            before,
            after,
        } => find_in_expression(centre, inside).or(find_in_expression(before, inside).or(
            find_in_expression(after, inside),
        )),
        Mapping::Insert { result: by } => find_in_expression(by, inside),
    }
}

/// Whether groups have more than 64 mappings or more than 64 contexts together.
fn are_large(groups: &[Group<Raw>]) -> bool
    ensures { result ≡ (nat_lt most_in_rules (mappings_in (groups_of groups.now)) || nat_lt most_in_rules (contexts_in (groups_of groups.now))) }
{
    let mut mappings: usize = 0;
    let mut contexts: usize = 0;
    'groups: for group in groups {
        mappings = mappings.saturating_add(group.maps.len());
        contexts = contexts.saturating_add(group.contexts.len());
    }
    is_large(mappings, contexts)
}

/// Whether there are more than 64 mappings or more than 64 contexts.
fn is_large(mappings: usize, contexts: usize) -> bool
    ensures { result ≡ (nat_lt most_in_rules mappings || nat_lt most_in_rules contexts) }
{
    mappings > MOST_IN_RULES || contexts > MOST_IN_RULES
}

/// Whether a suffix is a power with a number above 255.
fn is_high(suffix: &Suffix) -> bool
    ensures { result ≡ is_high suffix.now }
{
    match suffix {
        Suffix::Power(number) => *number > HIGHEST_POWER,
        _ => false,
    }
}

/// Whether one of the suffixes is such a power.
fn has_high_power(suffixes: &[Suffix]) -> bool
    ensures { result ≡ list_any is_high suffixes.now }
{
    suffixes.iter().any(|suffix| is_high(suffix))
}
