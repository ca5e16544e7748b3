ghost use Rattle.std.specs.Prelude.{◌≡◌, ◌≤◌, ◌+◌, ◌++◌, ◌∷◌, [], List, All, Contains, IfOk, IfErr, OnOk, length, map, take};
ghost use Rattle.fsm_base.specs.Symbols.{IsSymbol};
ghost use Rattle.word_relations.specs.Words.{IsDistinct};
ghost use Rattle.name_order.specs.Orders.{IsOrder};
ghost use Rattle.project_manifest.specs.Lines.{Placed, symbols_of};
ghost use Rattle.project_manifest.specs.Rows.{First};
ghost use Rattle.project_manifest.specs.Sayings.{placed_of};
ghost use Rattle.project_meaning.specs.Projects.{names_of, with_texts};
ghost use Rattle.project_sources.specs.Built.{BodyIsBuilt};
ghost use Rattle.project_sources.specs.Faults.{definition_rows, fault, said_rows};
ghost use Rattle.project_sources.specs.Limits.{most_before, most_symbols};
ghost use Rattle.project_sources.specs.Sources.{project_in};
ghost use Rattle.project_definitions.specs.Demands.{DemandFault, DoesMeet, demands, why_not};
ghost use Rattle.project_model.specs.Answers.{IsPlanBy, IsRefusal, IsRefusedBy, said_of, written_of};
ghost use Rattle.project_meaning.specs.Leaves.{resolved};
ghost use Rattle.name_resolution.specs.Numbered.{numbered};
ghost use Rattle.project_definitions.specs.Bodies.{IsFormed, mapped_body};
ghost use Rattle.project_definitions.specs.Plain.{body_of};
ghost use Rattle.project_model.specs.Gathered.{gathered, symbols_of_all};
ghost use Rattle.project_model.specs.Numbered.{numbers_in};
ghost use Rattle.project_model.specs.Plans.{IsPlan};
ghost use Rattle.project_definitions.specs.Referring.{references_of};
ghost use Rattle.project_definitions.specs.Entries.{entry_in, entry_of};
ghost use Rattle.project_definitions.specs.declared.demands.Demand.TheVariants as demand;

use crate::names::names_of;
use crate::symbols::symbols_of;
use crate::unknown::first_unknown;
use crate::written::WrittenDefine;
use expr_kinds::Form;
use fsm_base::{Sym, SymbolTable, Text};
use interlinear::GlossTable;
use name_resolution::{
    Names, are_resolved_by_number, is_resolved_by_number, resolve, resolve_grammar,
    resolve_lexicons,
};
use project_definitions::{Body, Definition, Demand, first_failing, forms_of, order_in};
use project_manifest::ManifestLine;
use project_sources::{MOST_SYMBOLS, PlanError, refused};
use regex_ast::{Atom, Raw, Why};
use std::alloc::{AllocError, Global};
use std::marker::Model;

/// The definitions of a project without fault, the symbols of its alphabet, and its glosses.
#[derive(Drop)]
pub struct Plan {
    /// The definitions, in order; each has a name of its own and can be built over the symbols.
    definitions: Vec<Definition>,
    /// The symbols of the alphabet, each once.
    symbols: Vec<Sym>,
    /// The places of the definitions, each behind those that it refers to.
    order: Vec<usize>,
    /// What each definition is by its form.
    forms: Vec<Form>,
    /// The glosses of its files.
    glosses: GlossTable,
}

impl Model for Plan {
    ghost use Rattle.regex_ast.specs.contracts.expr.Atom as atom;
    ghost use Rattle.regex_ast.specs.contracts.expr.Expr as expr;
    ghost use Rattle.regex_ast.specs.contracts.twolc.PairPart as part;
    ghost use Rattle.std.specs.Coded.{codes};
    ghost use Rattle.project_model.specs.Plans.{PlanView};

    ghost Value = { PlanView };

    ghost coded = { Prim.hlevel (codes, (expr.the_row atom.the_row).coded, (expr.the_row (part.the_row atom.the_row)).coded) };

    ghost use Rattle.project_model.specs.Plans.{IsOrderedPlan};

    ghost view = { λ p. record { definitions = p.definitions.items; symbols = p.symbols.items; forms = p.forms.items; glosses = p.glosses } };

    ghost invariant = { λ p. IsOrderedPlan (record { definitions = p.definitions.items; symbols = p.symbols.items; forms = p.forms.items; glosses = p.glosses }) p.order.items };
}

impl Plan {
    /// The definitions, in the order of their statements.
    pub fn definitions(&self) -> &[Definition]
        ensures definitions { result.now ≡ self.now.definitions }
        ensures formed { IsPlan self.now }
    {
        &self.definitions
    }

    /// The symbols of the alphabet, in the order of their first places.
    pub fn symbols(&self) -> &[Sym]
        ensures symbols { result.now ≡ self.now.symbols }
        ensures formed { IsPlan self.now }
    {
        &self.symbols
    }

    /// What each definition is by its form: whether it's a language or a relation, and its weight.
    pub fn forms(&self) -> &[Form]
        ensures forms { result.now ≡ self.now.forms }
        ensures formed { IsPlan self.now }
    {
        &self.forms
    }

    /// The table of glosses, which is empty where the project has none.
    pub fn glosses(&self) -> &GlossTable
        ensures { result.now ≡ self.now.glosses }
    {
        &self.glosses
    }

    /// The places of the definitions, counted from 0, each behind those that its definition refers to.
    pub fn order(&self) -> &[usize]
        ensures { IsOrder (references_of self.now.definitions) result.now }
    {
        &self.order
    }
}

/// Puts texts into a table, each where it's new and the table has room for it.
fn add_texts(texts: &[Text], table: &mut SymbolTable) -> Result<(), AllocError>
    requires symbols { All IsSymbol texts.now }
    requires short { length table.old ≤ most_symbols + 1 }
    ensures { OnOk result (table.new ≡ gathered table.old texts.now) }
{
    'texts: for text in texts {
        add_text(text, table)?;
    }
    Ok(())
}

/// Puts a text into a table, where it's new and the table has room for it.
fn add_text(text: &Text, table: &mut SymbolTable) -> Result<(), AllocError>
    requires symbol { IsSymbol text.now }
    requires short { length table.old ≤ most_symbols + 1 }
    ensures { OnOk result (table.new ≡ gathered table.old (text.now ∷ [])) }
{
    if table.len() <= MOST_SYMBOLS {
        table.intern(text.as_str())?;
    }
    Ok(())
}

/// The symbols that stand in definitions where these names are defined, and further ones that lines of a manifest declare, in
/// the order of their first places. Where they are more than a project may have, it's one more than that.
fn alphabet_of(
    alloc: Global,
    names: &Names,
    written: &[WrittenDefine],
    lines: &[ManifestLine],
) -> Result<SymbolTable, AllocError>
    requires { All IsSymbol (symbols_of (map placed_of lines.now)) }
    ensures { IfOk result (λ table. table ≡ gathered [] (symbols_of_all names.now (map written_of written.now) ++ symbols_of (map placed_of lines.now))) }
{
    let mut alphabet = symbols_of(alloc, names, written)?;
    'lines: for line in lines {
        add_texts(line.declares.symbols(), &mut alphabet)?;
    }
    Ok(alphabet)
}

/// Puts the symbols of an alphabet into a table, in their order, each where it's new.
fn intern_all(alphabet: &SymbolTable, table: &mut SymbolTable) -> Result<(), AllocError>
    requires { length table.old + length alphabet.now ≤ 16777216 }
    ensures table { OnOk result (table.new ≡ with_texts table.old alphabet.now) }
    ensures front { take (length table.old) table.new ≡ table.old }
{
    'numbers: for number in 0..alphabet.len() {
        let Some(text) = alphabet.text_of(Sym(number as u32)) else {
            unreachable!()
        };
        table.intern(text)?;
    }
    Ok(())
}

/// The numbers of the symbols of an alphabet in a table.
fn numbers_of(
    alloc: Global,
    alphabet: &SymbolTable,
    table: &SymbolTable,
) -> Result<Vec<Sym>, AllocError>
    ensures { IfOk result (λ symbols. symbols.items ≡ numbers_in table.now alphabet.now) }
{
    let mut symbols = Vec::new(alloc);
    'numbers: for number in 0..alphabet.len() {
        let Some(text) = alphabet.text_of(Sym(number as u32)) else {
            unreachable!()
        };
        symbols.push(table.number_of(text))?;
    }
    Ok(symbols)
}

/// What a name stands for, its leaves resolved.
fn resolve_body(
    alloc: Global,
    names: &Names,
    table: &SymbolTable,
    body: Body<Raw>,
) -> Result<Body<Atom>, AllocError>
    ensures { IfOk result (λ found. body_of found ≡ mapped_body (numbered names.now table.now) (resolved names.now (body_of body))) }
{
    // the laws that a resolved leaf by its number is the leaf as it is written, by its number
    are_resolved_by_number();
    is_resolved_by_number();
    match body {
        Body::Xfst(expr) => Ok(Body::Xfst(resolve(alloc, names, table, &expr)?)),
        Body::Lexc(lexicons) => Ok(Body::Lexc(resolve_lexicons(alloc, names, table, lexicons)?)),
        Body::Twolc(grammar) => Ok(Body::Twolc(resolve_grammar(alloc, names, table, &grammar)?)),
    }
}

/// A definition that a file writes, its leaves resolved.
fn define(
    alloc: Global,
    names: &Names,
    table: &SymbolTable,
    one: WrittenDefine,
) -> Result<Definition, AllocError>
    ensures { IfOk result (λ definition. entry_of definition ≡ entry_in names.now table.now (written_of one)) }
{
    let WrittenDefine {
        name,
        line,
        file,
        body,
    } = one;
    Ok(Definition {
        name,
        line,
        file,
        body: resolve_body(alloc, names, table, body)?,
    })
}

/// The definitions that files write, their leaves resolved.
fn define_each(
    alloc: Global,
    names: &Names,
    table: &SymbolTable,
    written: Vec<WrittenDefine>,
) -> Result<Vec<Definition>, AllocError>
    ensures { IfOk result (λ definitions. map entry_of definitions.items ≡ map (entry_in names.now table.now) (map written_of written.items)) }
{
    let mut definitions = Vec::new(alloc);
    'written: for one in written {
        definitions.push(define(alloc, names, table, one)?)?;
    }
    Ok(definitions)
}

/// Refuses a definition.
fn refused_at(alloc: Global, definition: &Definition, why: Why) -> PlanError
    ensures { IsRefusal (fault definition.now.file definition.now.line why) result }
{
    refused(alloc, definition.file.as_str(), definition.line, why)
}

/// Why a definition is refused that doesn't meet a demand.
fn why_not(demand: Demand) -> Why
    ensures { result ≡ why_not demand }
{
    match demand {
        Demand::Fits => Why::NotALanguage,
        Demand::Light => Why::LimitWeight,
    }
}

/// That definitions meet a demand where names have these forms.
fn meet(
    alloc: Global,
    definitions: &[Definition],
    forms: &[Form],
    demand: Demand,
) -> Result<(), PlanError>
    ensures met { OnOk result (All (DoesMeet forms.now demand) definitions.now) }
    ensures error { IfErr result (IsRefusedBy (DemandFault definitions.now forms.now demand)) }
{
    match first_failing(alloc, definitions, forms, demand) {
        Ok(Some(definition)) => Err(refused_at(alloc, definition, why_not(demand))),
        Ok(None) => Ok(()),
        Err(error) => Err(PlanError::Memory(error)),
    }
}

/// That definitions are sound where names have these forms: each fits, and none is too heavy.
fn check(alloc: Global, definitions: &[Definition], forms: &[Form]) -> Result<(), PlanError>
    ensures fits { OnOk result (All (DoesMeet forms.now demand.Fits) definitions.now) }
    ensures light { OnOk result (All (DoesMeet forms.now demand.Light) definitions.now) }
    ensures error { IfErr result (IsRefusedBy (First (DemandFault definitions.now forms.now) demands)) }
{
    match meet(alloc, definitions, forms, Demand::Fits) {
        Ok(()) => {}
        Err(error) => return Err(error),
    }
    meet(alloc, definitions, forms, Demand::Light)
}

/// The plan of definitions over an alphabet, whose symbols are put into the table, and of a table of glosses. They are refused for their first
/// fault: a definition that reaches itself, an operand that must be a language and isn't one, or a definition that is too
/// heavy. Whatever it answers, the table begins with what it was.
fn plan_over(
    alloc: Global,
    names: &Names,
    alphabet: &SymbolTable,
    written: Vec<WrittenDefine>,
    glosses: GlossTable,
    table: &mut SymbolTable,
) -> Result<Plan, PlanError>
    requires names { names.now ≡ names_of (map written_of written.items) }
    requires apart { IsDistinct names.now }
    requires symbols { All (Contains alphabet.now) (symbols_of_all names.now (map written_of written.items)) }
    requires distinct { IsDistinct alphabet.now }
    requires room { length table.old + length alphabet.now ≤ 16777216 }
    requires formed { All (λ w. IsFormed w.body) (map written_of written.items) }
    requires built { All (λ w. BodyIsBuilt (resolved (names_of (map written_of written.items)) w.body)) (map written_of written.items) }
    ensures plan { (manifest : List Placed) → (project_in (said_of manifest (map written_of written.items))).alphabet ≡ alphabet.now → IsPlanBy definition_rows (said_of manifest (map written_of written.items)) table.old table.new result }
    ensures glosses { IfOk result (λ plan. plan.glosses ≡ glosses) }
    ensures front { take (length table.old) table.new ≡ table.old }
{
    intern_all(alphabet, table)?;
    let definitions = define_each(alloc, names, table, written)?;
    let order = match order_in(alloc, &definitions) {
        Ok(order) => order,
        Err(error) => return Err(error),
    };
    let forms = forms_of(alloc, &definitions, &order)?;
    match check(alloc, &definitions, &forms) {
        Ok(()) => {}
        Err(error) => return Err(error),
    }
    let symbols = numbers_of(alloc, alphabet, table)?;
    Ok(Plan {
        definitions,
        symbols,
        order,
        forms,
        glosses,
    })
}

/// The plan of the definitions and glosses that the files of a manifest with these lines write, whose symbols are put into the
/// table. They
/// are refused for their first fault: a name that stands twice or names that are too many, symbols that are too many, a name
/// that a line requires and that isn't defined, or one of their definitions. Whatever it answers, the table begins with what
/// it was.
pub fn plan_of(
    alloc: Global,
    lines: &[ManifestLine],
    written: Vec<WrittenDefine>,
    glosses: GlossTable,
    table: &mut SymbolTable,
) -> Result<Plan, PlanError>
    requires symbols { All IsSymbol (symbols_of (map placed_of lines.now)) }
    requires room { length table.old ≤ most_before }
    requires formed { All (λ w. IsFormed w.body) (map written_of written.items) }
    requires built { All (λ w. BodyIsBuilt (resolved (names_of (map written_of written.items)) w.body)) (map written_of written.items) }
    ensures plan { IsPlanBy said_rows (said_of (map placed_of lines.now) (map written_of written.items)) table.old table.new result }
    ensures glosses { IfOk result (λ plan. plan.glosses ≡ glosses) }
    ensures front { take (length table.old) table.new ≡ table.old }
{
    let names = match names_of(alloc, &written) {
        Ok(names) => names,
        Err(error) => return Err(error),
    };
    let alphabet = alphabet_of(alloc, &names, &written, lines)?;
    if alphabet.len() > MOST_SYMBOLS {
        return Err(refused(alloc, "project", 0, Why::LimitSymbols));
    }
    if let Some(line) = first_unknown(&names, lines) {
        return Err(refused(alloc, "project", line.number, Why::UnknownName));
    }
    plan_over(alloc, &names, &alphabet, written, glosses, table)
}
