ghost use Rattle.std.specs.Prelude.{◌≡◌, map, IfOk};
ghost use Rattle.regex_ast.specs.Terms.{rules, directed, term, maps_of, side_of, contexts_in, terms_of, links_of, contexts_of, steps_by, mappings_of, groups_of};
ghost use Rattle.expr_leaves.specs.Mapped.{mapped, mapped_contexts, mapped_each, mapped_groups, mapped_links, mapped_mappings, mapped_steps};

use regex_ast::{Context, Directed, Expr, Group, Link, Mapping, RuleSet, Side, Step, Way};
use std::alloc::{AllocError, Global};

/// What the leaves of expressions are replaced by.
pub trait LeafMap<A, B> {
    /// What a leaf is replaced by.
    ghost image: { Self → A → B };

    /// What a leaf is replaced by.
    fn image_of(&self, alloc: Global, leaf: &A) -> Result<B, AllocError>
        ensures { IfOk result (λ found. found ≡ image self.now leaf.now) };
}

/// A set of rules.
fn with_groups<B>(optional: bool, groups: Vec<Group<B>>) -> Expr<B>
    ensures { term result ≡ rules optional (groups_of groups.items) }
{
    Expr::Rules(RuleSet { optional, groups })
}

/// A directed rule.
fn with_way<B>(way: Way, maps: Vec<Mapping<B>>, contexts: Vec<Context<B>>) -> Expr<B>
    ensures { term result ≡ directed way (mappings_of maps.items) (contexts_of contexts.items) }
{
    Expr::Directed(Directed {
        way,
        maps,
        contexts,
    })
}

/// A group of these parts.
fn with_parts<B>(maps: Vec<Mapping<B>>, side: Side, contexts: Vec<Context<B>>) -> Group<B>
    ensures maps { maps_of result ≡ maps.items }
    ensures side { side_of result ≡ side }
    ensures contexts { contexts_in result ≡ contexts.items }
{
    Group {
        maps,
        side,
        contexts,
    }
}

/// A walk over an expression that makes it again with its leaves replaced.
#[derive(Drop)]
struct Walk<'a, M> {
    /// Where the parts are made.
    alloc: Global,
    /// What the leaves are replaced by.
    images: &'a M,
}

/// The expression with its leaves replaced.
pub fn map_leaves<A, B: Drop, M: LeafMap<A, B>>(
    alloc: Global,
    images: &M,
    expr: &Expr<A>,
) -> Result<Expr<B>, AllocError>
    ensures { IfOk result (λ found. term found ≡ mapped (M.image images.now) (term expr.now)) }
{
    Walk { alloc, images }.leaves(expr)
}

/// Contexts with their leaves replaced.
pub fn map_contexts<A, B: Drop, M: LeafMap<A, B>>(
    alloc: Global,
    images: &M,
    contexts: &[Context<A>],
) -> Result<Vec<Context<B>>, AllocError>
    ensures { IfOk result (λ found. contexts_of found.items ≡ mapped_contexts (M.image images.now) (contexts_of contexts.now)) }
{
    Walk { alloc, images }.contexts(contexts)
}

impl<M> Walk<'_, M> {
    /// The expression with its leaves replaced.
    #[cycle(walk)]
    fn leaves<A, B: Drop>(&self, expr: &Expr<A>) -> Result<Expr<B>, AllocError>
    where
        M: LeafMap<A, B>,
        ensures { IfOk result (λ found. term found ≡ mapped (M.image self.now.images.now) (term expr.now)) }
    {
        match expr {
            Expr::Empty => Ok(Expr::Empty),
            Expr::Any => Ok(Expr::Any),
            Expr::Edge => Ok(Expr::Edge),
            Expr::Atom(leaf) => Ok(Expr::Atom(self.images.image_of(self.alloc, leaf)?)),
            Expr::Letters(leaves) => Ok(Expr::Letters(self.letters(leaves)?)),
            Expr::Group(inner) => {
                let inner = self.leaves(inner)?;
                Ok(Expr::Group(Box::new(self.alloc, inner)?))
            }
            Expr::Maybe(inner) => {
                let inner = self.leaves(inner)?;
                Ok(Expr::Maybe(Box::new(self.alloc, inner)?))
            }
            Expr::NotOne(marks, inner) => {
                let inner = self.leaves(inner)?;
                Ok(Expr::NotOne(*marks, Box::new(self.alloc, inner)?))
            }
            Expr::Cross(upper, lower) => {
                let upper = Box::new(self.alloc, self.leaves(upper)?)?;
                let lower = Box::new(self.alloc, self.leaves(lower)?)?;
                Ok(Expr::Cross(upper, lower))
            }
            Expr::Suffixed(inner, suffixes) => {
                let inner = Box::new(self.alloc, self.leaves(inner)?)?;
                Ok(Expr::Suffixed(inner, Vec::from_slice(self.alloc, suffixes)?))
            }
            Expr::Prefixed(prefixes, inner) => {
                let inner = Box::new(self.alloc, self.leaves(inner)?)?;
                Ok(Expr::Prefixed(Vec::from_slice(self.alloc, prefixes)?, inner))
            }
            Expr::Ignore(operands) => Ok(Expr::Ignore(self.each(operands)?)),
            Expr::Concat(operands) => Ok(Expr::Concat(self.each(operands)?)),
            Expr::Chain(first, links) => {
                let first = Box::new(self.alloc, self.leaves(first)?)?;
                Ok(Expr::Chain(first, self.links(links)?))
            }
            Expr::Only(centre, contexts) => {
                let centre = Box::new(self.alloc, self.leaves(centre)?)?;
                Ok(Expr::Only(centre, self.contexts(contexts)?))
            }
            Expr::Rules(rules) => {
                let optional = rules.optional;
                let groups = self.groups(&rules.groups)?;
                Ok(with_groups(optional, groups))
            }
            Expr::Directed(rule) => {
                let maps = self.mappings(&rule.maps)?;
                let contexts = self.contexts(&rule.contexts)?;
                Ok(with_way(rule.way, maps, contexts))
            }
            Expr::Steps(first, steps) => {
                let first = Box::new(self.alloc, self.leaves(first)?)?;
                Ok(Expr::Steps(first, self.steps(steps)?))
            }
        }
    }

    /// What leaves are replaced by.
    fn letters<A, B: Drop>(&self, leaves: &[A]) -> Result<Vec<B>, AllocError>
    where
        M: LeafMap<A, B>,
        ensures { IfOk result (λ found. found.items ≡ map (M.image self.now.images.now) leaves.now) }
    {
        let mut found = Vec::new(self.alloc);
        'leaves: for leaf in leaves {
            found.push(self.images.image_of(self.alloc, leaf)?)?;
        }
        Ok(found)
    }

    /// Expressions with their leaves replaced.
    #[cycle(walk)]
    fn each<A, B: Drop>(&self, operands: &[Expr<A>]) -> Result<Vec<Expr<B>>, AllocError>
    where
        M: LeafMap<A, B>,
        ensures { IfOk result (λ found. terms_of (map term found.items) ≡ mapped_each (M.image self.now.images.now) (terms_of (map term operands.now))) }
    {
        let mut found = Vec::new(self.alloc);
        'operands: for operand in operands {
            found.push(self.leaves(operand)?)?;
        }
        Ok(found)
    }

    /// The operands of a row of `|`, `&` and `-`.
    #[cycle(walk)]
    fn links<A, B: Drop>(&self, links: &[Link<A>]) -> Result<Vec<Link<B>>, AllocError>
    where
        M: LeafMap<A, B>,
        ensures { IfOk result (λ found. links_of found.items ≡ mapped_links (M.image self.now.images.now) (links_of links.now)) }
    {
        let mut found = Vec::new(self.alloc);
        'links: for link in links {
            match link {
                Link::Or(operand) => found.push(Link::Or(self.leaves(operand)?))?,
                Link::And(operand) => found.push(Link::And(self.leaves(operand)?))?,
                Link::Less(operand) => found.push(Link::Less(self.leaves(operand)?))?,
            }
        }
        Ok(found)
    }

    /// The operands of a row of `.x.` and `.o.`.
    #[cycle(walk)]
    fn steps<A, B: Drop>(&self, steps: &[Step<A>]) -> Result<Vec<Step<B>>, AllocError>
    where
        M: LeafMap<A, B>,
        ensures { IfOk result (λ found. steps_by found.items ≡ mapped_steps (M.image self.now.images.now) (steps_by steps.now)) }
    {
        let mut found = Vec::new(self.alloc);
        'steps: for step in steps {
            match step {
                Step::CrossWith(operand) => found.push(Step::CrossWith(self.leaves(operand)?))?,
                Step::Then(operand) => found.push(Step::Then(self.leaves(operand)?))?,
            }
        }
        Ok(found)
    }

    /// Contexts with their leaves replaced.
    #[cycle(walk)]
    fn contexts<A, B: Drop>(&self, contexts: &[Context<A>]) -> Result<Vec<Context<B>>, AllocError>
    where
        M: LeafMap<A, B>,
        ensures { IfOk result (λ found. contexts_of found.items ≡ mapped_contexts (M.image self.now.images.now) (contexts_of contexts.now)) }
    {
        let mut found = Vec::new(self.alloc);
        'contexts: for context in contexts {
            let left = self.leaves(&context.left)?;
            let right = self.leaves(&context.right)?;
            found.push(Context { left, right })?;
        }
        Ok(found)
    }

    /// The groups of a set of rules.
    #[cycle(walk)]
    fn groups<A, B: Drop>(&self, groups: &[Group<A>]) -> Result<Vec<Group<B>>, AllocError>
    where
        M: LeafMap<A, B>,
        ensures { IfOk result (λ found. groups_of found.items ≡ mapped_groups (M.image self.now.images.now) (groups_of groups.now)) }
    {
        let mut found = Vec::new(self.alloc);
        'groups: for group in groups {
            let maps = self.mappings(&group.maps)?;
            let contexts = self.contexts(&group.contexts)?;
            found.push(with_parts(maps, group.side, contexts))?;
        }
        Ok(found)
    }

    /// The mappings of a group.
    #[cycle(walk)]
    fn mappings<A, B: Drop>(&self, mappings: &[Mapping<A>]) -> Result<Vec<Mapping<B>>, AllocError>
    where
        M: LeafMap<A, B>,
        ensures { IfOk result (λ found. mappings_of found.items ≡ mapped_mappings (M.image self.now.images.now) (mappings_of mappings.now)) }
    {
        let mut found = Vec::new(self.alloc);
        'mappings: for mapping in mappings {
            match mapping {
                Mapping::Plain { centre, result: by } => found.push(Mapping::Plain {
                    centre: self.leaves(centre)?,
                    result: self.leaves(by)?,
                })?,
                Mapping::Markup {
                    centre,
                    before,
                    after,
                } => found.push(Mapping::Markup {
                    centre: self.leaves(centre)?,
                    before: self.leaves(before)?,
                    after: self.leaves(after)?,
                })?,
                Mapping::Insert { result: by } => found.push(Mapping::Insert {
                    result: self.leaves(by)?,
                })?,
            }
        }
        Ok(found)
    }
}
