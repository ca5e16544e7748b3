use regex_ast::{
    Context, Directed, Expr, Group, Link, Mapping, Prefix, Raw, RuleSet, Side, Step, Suffix, Way,
};
use std::alloc::AllocError;

/// Writes a symbol that is no name: in quotes, or with each character escaped where quotes can't hold it.
fn print_symbol(out: &mut String, text: &str) -> Result<(), AllocError> {
    if text.contains('"') || text.contains('\\') {
        'characters: for character in text.chars() {
            out.push('%')?;
            out.push(character)?;
        }
        return out.push(' ');
    }
    out.push('"')?;
    out.push_str(text)?;
    out.push_str("\" ")
}

fn print_leaf(out: &mut String, leaf: &Raw) -> Result<(), AllocError> {
    match leaf {
        Raw::Run(text) => {
            out.push_str(text.as_str())?;
            out.push(' ')
        }
        Raw::Quoted(text) => print_symbol(out, text.as_str()),
    }
}

fn print_letters(out: &mut String, letters: &[Raw]) -> Result<(), AllocError> {
    out.push('{')?;
    'letters: for letter in letters {
        out.push('%')?;
        match letter {
            Raw::Run(text) | Raw::Quoted(text) => out.push_str(text.as_str())?,
        }
    }
    out.push_str("} ")
}

fn print_suffix(out: &mut String, suffix: Suffix) -> Result<(), AllocError> {
    match suffix {
        Suffix::Star => out.push_str("* "),
        Suffix::Plus => out.push_str("+ "),
        Suffix::Upper => out.push_str(".u "),
        Suffix::Lower => out.push_str(".l "),
        Suffix::Inverse => out.push_str(".i "),
        Suffix::Reverse => out.push_str(".r "),
        Suffix::Power(times) => {
            let alloc = *out.allocator();
            let power = format!(in alloc; "^{times} ")?;
            out.push_str(power.as_str())
        }
    }
}

fn print_suffixes(out: &mut String, suffixes: &[Suffix]) -> Result<(), AllocError> {
    'suffixes: for suffix in suffixes {
        print_suffix(out, *suffix)?;
    }
    Ok(())
}

fn print_prefixes(out: &mut String, prefixes: &[Prefix]) -> Result<(), AllocError> {
    'prefixes: for prefix in prefixes {
        out.push_str(match prefix {
            Prefix::Not => "~ ",
            Prefix::Contains => "$ ",
        })?;
    }
    Ok(())
}

fn print_backslashes(out: &mut String, count: u32) -> Result<(), AllocError> {
    'backslashes: for _ in 0..count {
        out.push_str("\\ ")?;
    }
    Ok(())
}

/// Writes an expression in the language that it is read from, with blanks between all tokens.
#[cycle(print)]
pub fn print_expression(out: &mut String, expr: &Expr<Raw>) -> Result<(), AllocError> {
    match expr {
        Expr::Empty => out.push_str("[ ] "),
        Expr::Any => out.push_str("? "),
        Expr::Edge => out.push_str(".#. "),
        Expr::Atom(leaf) => print_leaf(out, leaf),
        Expr::Letters(letters) => print_letters(out, letters),
        Expr::Group(inner) => print_between(out, "[ ", inner, "] "),
        Expr::Maybe(inner) => print_between(out, "( ", inner, ") "),
        Expr::NotOne(count, inner) => {
            print_backslashes(out, *count)?;
            print_expression(out, inner)
        }
        Expr::Cross(upper, lower) => {
            print_expression(out, upper)?;
            print_between(out, ": ", lower, "")
        }
        Expr::Suffixed(inner, suffixes) => {
            print_expression(out, inner)?;
            print_suffixes(out, suffixes)
        }
        Expr::Prefixed(prefixes, inner) => {
            print_prefixes(out, prefixes)?;
            print_expression(out, inner)
        }
        Expr::Ignore(operands) => print_row(out, operands, "/ "),
        Expr::Concat(operands) => print_row(out, operands, ""),
        Expr::Chain(first, links) => {
            print_expression(out, first)?;
            print_links(out, links)
        }
        Expr::Only(inner, contexts) => {
            print_expression(out, inner)?;
            print_contexts(out, "=> ", contexts)
        }
        Expr::Rules(rules) => print_rules(out, rules),
        Expr::Directed(rule) => print_directed(out, rule),
        Expr::Steps(first, steps) => {
            print_expression(out, first)?;
            print_steps(out, steps)
        }
    }
}

#[cycle(print)]
fn print_between(
    out: &mut String,
    before: &str,
    inner: &Expr<Raw>,
    behind: &str,
) -> Result<(), AllocError> {
    out.push_str(before)?;
    print_expression(out, inner)?;
    out.push_str(behind)
}

/// Writes operands with a sign between them.
#[cycle(print)]
fn print_row(out: &mut String, operands: &[Expr<Raw>], sign: &str) -> Result<(), AllocError> {
    'operands: for (place, operand) in operands.iter().enumerate() {
        if place > 0 {
            out.push_str(sign)?;
        }
        print_expression(out, operand)?;
    }
    Ok(())
}

#[cycle(print)]
fn print_links(out: &mut String, links: &[Link<Raw>]) -> Result<(), AllocError> {
    'links: for link in links {
        match link {
            Link::Or(operand) => print_between(out, "| ", operand, "")?,
            Link::And(operand) => print_between(out, "& ", operand, "")?,
            Link::Less(operand) => print_between(out, "- ", operand, "")?,
        }
    }
    Ok(())
}

#[cycle(print)]
fn print_steps(out: &mut String, steps: &[Step<Raw>]) -> Result<(), AllocError> {
    'steps: for step in steps {
        match step {
            Step::CrossWith(operand) => print_between(out, ".x. ", operand, "")?,
            Step::Then(operand) => print_between(out, ".o. ", operand, "")?,
        }
    }
    Ok(())
}

/// Writes contexts, the first behind this sign and the others behind commas.
#[cycle(print)]
fn print_contexts(
    out: &mut String,
    sign: &str,
    contexts: &[Context<Raw>],
) -> Result<(), AllocError> {
    'contexts: for (place, context) in contexts.iter().enumerate() {
        out.push_str(if place == 0 { sign } else { ", " })?;
        print_expression(out, &context.left)?;
        print_between(out, "_ ", &context.right, "")?;
    }
    Ok(())
}

#[cycle(print)]
fn print_rules(out: &mut String, rules: &RuleSet<Raw>) -> Result<(), AllocError> {
    let arrow = if rules.optional { "(->) " } else { "-> " };
    'groups: for (place, group) in rules.groups.iter().enumerate() {
        if place > 0 {
            out.push_str(",, ")?;
        }
        print_group(out, arrow, group)?;
    }
    Ok(())
}

#[cycle(print)]
fn print_directed(out: &mut String, rule: &Directed<Raw>) -> Result<(), AllocError> {
    let arrow = match rule.way {
        Way::LeftLongest => "@-> ",
        Way::LeftShortest => "@> ",
        Way::RightLongest => "->@ ",
        Way::RightShortest => ">@ ",
    };
    print_mappings(out, arrow, &rule.maps)?;
    print_contexts(out, "|| ", &rule.contexts)
}

#[cycle(print)]
fn print_group(out: &mut String, arrow: &str, group: &Group<Raw>) -> Result<(), AllocError> {
    print_mappings(out, arrow, &group.maps)?;
    let sign = match group.side {
        Side::UpUp => "|| ",
        Side::LowUp => "// ",
        Side::UpLow => "\\\\ ",
        Side::LowLow => "\\/ ",
    };
    print_contexts(out, sign, &group.contexts)
}

#[cycle(print)]
fn print_mappings(
    out: &mut String,
    arrow: &str,
    mappings: &[Mapping<Raw>],
) -> Result<(), AllocError> {
    'mappings: for (place, mapping) in mappings.iter().enumerate() {
        if place > 0 {
            out.push_str(", ")?;
        }
        print_mapping(out, arrow, mapping)?;
    }
    Ok(())
}

#[cycle(print)]
fn print_mapping(out: &mut String, arrow: &str, mapping: &Mapping<Raw>) -> Result<(), AllocError> {
    match mapping {
        Mapping::Plain { centre, result } => {
            print_expression(out, centre)?;
            print_between(out, arrow, result, "")
        }
        Mapping::Markup {
            centre,
            before,
            after,
        } => {
            print_expression(out, centre)?;
            print_between(out, arrow, before, "... ")?;
            print_expression(out, after)
        }
        Mapping::Insert { result } => {
            out.push_str("[..] ")?;
            print_between(out, arrow, result, "")
        }
    }
}
