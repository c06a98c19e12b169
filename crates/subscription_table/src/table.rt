ghost use Rattle.std.specs.Prelude.{◌≡◌, ◌<◌, ◌++◌, ◌∷◌, [], All, length, map, OnOk, OnErr};
ghost use Rattle.std.specs.List.Sorted.{IsStrictlySortedBy};
ghost use Rattle.std.specs.Option.{option_copied};
ghost use Rattle.std.specs.Ordering.{nat_cmp};
ghost use Rattle.subscription_table.specs.Kept.{held_at, remembers, with_last, without};

use crate::held::Held;
use resp_keep::SharedKept;
use scalar_val::NoMemory;
use std::alloc::Global;
use std::collections::BTreeMap;
use std::marker::Model;

fn remember_in(held: &mut Held, text: SharedKept)
    ensures { held.new ≡ remembers text held.old }
{
    held.last = Some(text);
}

/// Subscriptions in order of their numbers. Contracts see the list of them.
#[derive(Drop)]
pub struct SubscriptionTable {
    held: BTreeMap<u64, Held>,
}

impl Model for SubscriptionTable {
    ghost use Rattle.std.specs.Prelude.{List};
    ghost use Rattle.std.specs.BTreeMap.{values};
    ghost use Rattle.std.specs.Coded.{codes};
    ghost use Rattle.subscription_table.specs.declared.held.Held.{Held};
    ghost use Rattle.subscription_table.specs.contracts.held.Held as whole_held;
    ghost use Rattle.subscription_table.specs.Numbered.{AreNumbered};

    ghost Value = { List Held };

    ghost coded = { Prim.hlevel (codes, whole_held.the_row.coded) };

    ghost view = { λ t. values t.held };

    ghost invariant = { λ t. AreNumbered t.held.entries };
}

impl SubscriptionTable {
    /// No subscription. It takes no memory.
    pub fn new(alloc: Global) -> SubscriptionTable
        ensures { result ≡ [] }
    {
        SubscriptionTable {
            held: BTreeMap::new(alloc),
        }
    }

    /// How many subscriptions there are. It takes no memory.
    pub fn len(&self) -> u64
        ensures { result ≡ length self.now }
    {
        self.held.len() as u64
    }

    /// The numbers ascend, so that none stands twice.
    pub fn ascend(&self)
        ensures { IsStrictlySortedBy nat_cmp (map (λ h. h.number) self.now) }
    {
        let _ = self.held.len();
    }

    /// The subscription of a number, or `None` where there is none. It takes no memory.
    pub fn get(&self, number: u64) -> Option<&Held>
        ensures { option_copied result ≡ held_at number self.now }
    {
        self.held.get(&number)
    }

    /// Adds a subscription, which needs a number above all others. For want of memory nothing is added.
    pub fn push(&mut self, held: Held) -> Result<(), NoMemory>
        requires { All (λ h. h.number < held.number) self.old }
        ensures ok { OnOk result (self.new ≡ self.old ++ held ∷ []) }
        ensures err { OnErr result (self.new ≡ self.old) }
    {
        let _none = self.held.insert(held.number, held)?;
        Ok(())
    }

    /// Takes the subscription of a number away. Where there is none, nothing changes. It takes no memory.
    pub fn remove(&mut self, number: u64)
        ensures { self.new ≡ without number self.old }
    {
        let _ = self.held.len();
        self.held.remove(&number);
    }

    /// Keeps a text as that of the last result of a number's subscription, in place of an earlier one. Where there is
    /// no such subscription, nothing changes. It takes no memory.
    pub fn remember(&mut self, number: u64, text: SharedKept)
        ensures { self.new ≡ with_last number text self.old }
    {
        if let Some(held) = self.held.get_mut(&number) {
            remember_in(held, text);
        }
    }
}
