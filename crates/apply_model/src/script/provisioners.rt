//! The provisioners of a step.

ghost use Rattle.std.specs.Prelude.{◌≡◌, ◌<◌, ◌≤◌, ◌^◌, length, Some, slice_get, vec_len};
ghost use Rattle.std.specs.List.{list_any};
ghost use Rattle.std.specs.Option.{option_copied};
ghost use Rattle.apply_model.specs.Script.Limits.{max_provisioners};

use crate::script::diag::Diag;
use crate::script::provisioner::Provisioner;
use std::marker::Model;

/// The greatest number of provisioners of a step in a script.
pub const MAX_PROVISIONERS: usize = 8;

/// The provisioners of a step in the order in which they run, at most 8. Contracts see a list.
#[derive(Debug, Drop)]
pub struct Provisioners {
    provisioners: Vec<Provisioner>,
}

impl Model for Provisioners {
    ghost use Rattle.std.specs.Prelude.{List, ◌≤◌, vec_len};
    ghost use Rattle.apply_model.specs.declared.script.provisioner.Provisioner.{Provisioner};
    ghost use Rattle.apply_model.specs.Script.Limits.{max_provisioners};

    ghost Value = { List Provisioner };

    ghost view = { λ p. p.provisioners.items };

    ghost invariant = { λ p. vec_len p.provisioners ≤ max_provisioners };
}

impl Provisioners {
    ghost use Rattle.apply_model.specs.Script.Outcome.{first_diag, makes_fail, ran, seconds_of_all};

    /// These provisioners, in the order in which they run.
    pub fn new(provisioners: Vec<Provisioner>) -> Provisioners
        requires { vec_len provisioners ≤ max_provisioners }
        ensures { result ≡ provisioners.items }
    {
        Provisioners { provisioners }
    }

    /// The number of provisioners, at most 8.
    pub fn len(&self) -> u8
        ensures len { result ≡ length self.now }
        ensures few { length self.now ≤ max_provisioners }
    {
        self.provisioners.len() as u8
    }

    /// The provisioner of that number, counted from 0.
    pub fn get(&self, number: u8) -> &Provisioner
        requires { number < length self.now }
        ensures { Some result.now ≡ slice_get self.now number }
    {
        &self.provisioners[number as usize]
    }

    /// The error of the first provisioner that makes the step fail. `None` where no provisioner
    /// does.
    pub fn first_failure(&self) -> Option<&Diag>
        ensures { option_copied result ≡ first_diag self.now }
    {
        for provisioner in &self.provisioners {
            if let Some(diag) = provisioner.failure() {
                return Some(diag);
            }
        }
        None
    }

    /// Whether a provisioner makes the step fail.
    pub fn make_fail(&self) -> bool
        ensures { result ≡ list_any makes_fail self.now }
    {
        self.provisioners.iter().any(Provisioner::makes_fail)
    }

    /// The number of provisioners that run: all up to and with the first that makes the step fail.
    pub fn count_that_run(&self) -> u8
        ensures { result ≡ length (ran self.now) }
    {
        for (number, provisioner) in self.provisioners.iter().enumerate() {
            if provisioner.makes_fail() {
                return number as u8 + 1;
            }
        }
        self.len()
    }

    /// How long the provisioners that run take together, in seconds.
    pub fn seconds(&self) -> u32
        requires { seconds_of_all (ran self.now) < 2 ^ 32 }
        ensures { result ≡ seconds_of_all (ran self.now) }
    {
        let mut seconds = 0;
        for provisioner in &self.provisioners {
            seconds += provisioner.seconds;
            if provisioner.makes_fail() {
                return seconds;
            }
        }
        seconds
    }
}
