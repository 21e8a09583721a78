// How the classes of nodes compare with the best node so far by the placement preferences.
ghost use Rattle.std.specs.Prelude.{◌≡◌, ◌<◌, ◌≤◌, IsTrue, None, Some, get_or, replicate, set};
ghost use Rattle.std.specs.declared.cmp.Ordering.TheVariants.{Equal, Greater};
ghost use Rattle.swarm_sched.specs.Inside.ClassTable.{AreTold};
ghost use Rattle.swarm_sched.specs.declared.classes.TheConstants.{CLASSES};

use crate::classes::CLASSES;
use std::cmp::Ordering;
use std::marker::Model;

/// How the classes compare with the best node, where it is known. Contracts see the list of this.
#[derive(Drop)]
pub struct Orders {
    each: [Option<Ordering>; CLASSES],
}

impl Model for Orders {
    ghost use Rattle.std.specs.Prelude.{◌≡◌, List, Option, length};
    ghost use Rattle.std.specs.declared.cmp.Ordering.{Ordering as Order};
    ghost use Rattle.swarm_sched.specs.declared.classes.TheConstants.{CLASSES};

    ghost Value = { List (Option Order) };

    ghost view = { λ o. o.each };

    ghost invariant = { λ o. length o.each ≡ CLASSES };
}

impl Orders {
    /// Nothing is known.
    pub fn new() -> Orders
        ensures { result ≡ replicate CLASSES None }
    {
        Orders {
            each: [None; CLASSES],
        }
    }

    /// All compare as equal.
    pub fn alike() -> Orders
        ensures { result ≡ replicate CLASSES (Some Equal) }
    {
        Orders {
            each: [Some(Ordering::Equal); CLASSES],
        }
    }

    /// So many classes compare by their tasks with one that has so many, and where they have as many, as these values
    /// say.
    pub fn told(
        count: usize,
        loads: &[u64; CLASSES],
        load: u64,
        values: &[Ordering; CLASSES],
    ) -> Orders
        requires { count ≤ CLASSES }
        ensures { AreTold loads.now load values.now count result }
    {
        let mut orders = Orders::new();
        for class in 0..count {
            orders.set(class, loads[class].cmp(&load).then(values[class]));
        }
        orders
    }

    /// How the class compares.
    pub fn order(&self, class: usize) -> Option<Ordering>
        requires { class < CLASSES }
        ensures { result ≡ get_or self.now class None }
    {
        self.each[class]
    }

    /// The class is known to compare as greater.
    pub fn is_behind(&self, class: usize) -> bool
        requires { class < CLASSES }
        ensures { IsTrue result → get_or self.now class None ≡ Some Greater }
    {
        match self.each[class] {
            Some(Ordering::Greater) => true,
            Some(Ordering::Less) | Some(Ordering::Equal) | None => false,
        }
    }

    /// The class compares so.
    pub fn set(&mut self, class: usize, order: Ordering)
        requires { class < CLASSES }
        ensures { self.new ≡ set self.old class (Some order) }
    {
        self.each[class] = Some(order);
    }
}
