//! An index of match resources by resource.
ghost use Rattle.std.specs.Prelude.{◌≡◌, IfOk, OnOk, bytes_eq, map, option_map, set, true, unwrap_or};
ghost use Rattle.admission_match.specs.Matching.{match_view};
ghost use Rattle.policy_index.specs.Building.{has, patterns_have, rules_have, views, Marks};
ghost use Rattle.policy_index.specs.Indexes.{answers, IsIndexOf};
ghost use Rattle.policy_index.specs.Naming.{candidates};

use crate::naming::{may_match, named_resource};
use admission_match::{MatchResources, Rule};
use std::alloc::{AllocError, Global};
use std::collections::BTreeMap;

/// For each resource, which match resources of a list may match a request on it.
#[derive(Debug, Drop)]
pub struct ResourceIndex {
    /// The answers for each resource that a rule names.
    rows: BTreeMap<String, Vec<bool>>,
    /// The answers for all other resources: of rules that name `*`.
    others: Vec<bool>,
}

impl ResourceIndex {
    /// The index of these match resources.
    pub fn new(alloc: Global, constraints: &[&MatchResources]) -> Result<ResourceIndex, AllocError>
        ensures { IfOk result (λ index. IsIndexOf index (map (λ m. match_view m.now) constraints.now)) }
    {
        let rows = BTreeMap::new(alloc);
        let others = row(alloc, constraints, "*")?;
        let mut index = ResourceIndex { rows, others };
        for (place, resources) in constraints.iter().enumerate() {
            index.mark_resources(alloc, place, resources)?;
        }
        Ok(index)
    }

    /// For each of the match resources, in order, whether it may match a request on this resource.
    /// One that may not matches none.
    #[tactic(auto, unfolding(crate::specs::Indexes::answers))]
    pub fn candidates(&self, resource: &str) -> &[bool]
        ensures { result.now ≡ answers self.now resource.now }
    {
        match self.rows.get(resource) {
            Some(row) => row,
            None => &self.others,
        }
    }

    /// Answers yes at this place for each resource that a rule of the match resources names.
    fn mark_resources(
        &mut self,
        alloc: Global,
        place: usize,
        resources: &MatchResources,
    ) -> Result<(), AllocError>
        ensures { OnOk result (Marks self.old self.new place (has resources.now)) }
    {
        self.mark_rules(alloc, place, &resources.resource_rules)?;
        self.mark_rules(alloc, place, &resources.exclude_resource_rules)?;
        Ok(())
    }

    /// Answers yes at this place for each resource that one of the rules names.
    fn mark_rules(&mut self, alloc: Global, place: usize, rules: &[Rule]) -> Result<(), AllocError>
        ensures { OnOk result (Marks self.old self.new place (rules_have rules.now)) }
    {
        for rule in rules {
            self.mark_patterns(alloc, place, &rule.resources)?;
        }
        Ok(())
    }

    /// Answers yes at this place for each resource that one of the patterns names.
    fn mark_patterns(
        &mut self,
        alloc: Global,
        place: usize,
        patterns: &[String],
    ) -> Result<(), AllocError>
        ensures { OnOk result (Marks self.old self.new place (patterns_have patterns.now)) }
    {
        for pattern in patterns {
            self.mark(alloc, place, named_resource(pattern.as_str()))?;
        }
        Ok(())
    }

    /// Answers yes at this place for the resource, in a row of its own.
    fn mark(&mut self, alloc: Global, place: usize, resource: &str) -> Result<(), AllocError>
        ensures { OnOk result (Marks self.old self.new place (bytes_eq resource.now)) }
    {
        let mut row = row_or_copy(self.rows.remove(resource), &self.others)?;
        set_true(&mut row, place);
        let name = String::from_str(alloc, resource)?;
        let _old = self.rows.insert(name, row)?;
        Ok(())
    }
}

/// Whether each of the match resources may match a request on the resource.
fn row(
    alloc: Global,
    constraints: &[&MatchResources],
    resource: &str,
) -> Result<Vec<bool>, AllocError>
    ensures { IfOk result (λ row. row.items ≡ candidates (views constraints.now) resource.now) }
{
    let mut row = Vec::with_capacity(alloc, constraints.len())?;
    for resources in constraints {
        row.push(may_match(resources, resource))?;
    }
    Ok(row)
}

/// The row if there is one, or else a copy of the row of all others.
fn row_or_copy(row: Option<Vec<bool>>, others: &Vec<bool>) -> Result<Vec<bool>, AllocError>
    ensures { IfOk result (λ found. found.items ≡ unwrap_or (option_map (λ v. v.items) row) others.now.items) }
{
    match row {
        Some(row) => Ok(row),
        None => others.clone(),
    }
}

/// Answers yes at this place of the row, if it has the place.
fn set_true(row: &mut Vec<bool>, place: usize)
    ensures { row.new.items ≡ set row.old.items place true }
{
    if let Some(answer) = row.get_mut(place) {
        *answer = true;
    }
}
