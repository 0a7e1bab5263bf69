//! One file under two names.
//!
//! A run reads and writes files that a person names. If an output or a journal is an input, another output, or what standard
//! output or standard error goes to, one text would take the place of another. So this is looked at before anything is opened.
use crate::fault::Fault;
use crate::leads::{Leads, leads_of};
use crate::names::{Named, Names};
use std::alloc::Global;
use std::rt;

/// What standard output and standard error go to. If the system does not tell, nothing is known of them.
const STANDARD_OUTPUT: Named<'static> = Named {
    name: "/proc/self/fd/1",
    role: "is standard output",
};

const STANDARD_ERROR: Named<'static> = Named {
    name: "/proc/self/fd/2",
    role: "is standard error",
};

/// Fails if a name that is written leads to a file that is read and has to stay, to another one that is written, or to a standard
/// stream's; or if one that is read leads to a standard stream's.
pub fn no_clash<'n, R: rt::Files>(
    rt: &R,
    alloc: Global,
    names: &Names<'n>,
) -> Result<(), Fault<'n>> {
    let mut taken = Taken::new(rt, alloc);
    taken.look_over(names)
}

/// Files to which no other name may lead.
#[derive(Drop)]
struct Taken<'r, R: rt::Files> {
    rt: &'r R,
    alloc: Global,
    files: Vec<File>,
}

/// Such a file, and what is said of a name that leads to it.
#[derive(Drop)]
struct File {
    leads: Leads,
    role: &'static str,
}

impl<'r, R: rt::Files> Taken<'r, R> {
    fn new(rt: &'r R, alloc: Global) -> Self {
        Taken {
            rt,
            alloc,
            files: Vec::new(alloc),
        }
    }

    /// Adds and looks at the names of a command line, in this order.
    fn look_over<'n>(&mut self, names: &Names<'n>) -> Result<(), Fault<'n>> {
        self.add(Some(STANDARD_OUTPUT))?;
        self.add(Some(STANDARD_ERROR))?;
        self.look(names.input)?;
        self.look(names.other_input)?;
        self.look(names.renewed)?;
        self.add(names.input)?;
        self.add(names.other_input)?;
        self.look(names.output)?;
        self.add(names.output)?;
        self.look(names.other_output)
    }

    /// Adds the file that this name leads to.
    fn add<'n>(&mut self, named: Option<Named<'n>>) -> Result<(), Fault<'n>> {
        let Some(named) = named else {
            return Ok(());
        };
        let leads = self.leads_of(named)?;
        let file = File {
            leads,
            role: named.role,
        };
        match self.files.push(file) {
            Ok(()) => Ok(()),
            Err(refused) => Err(Fault {
                name: named.name,
                why: refused.into(),
            }),
        }
    }

    /// Fails if this name leads to such a file.
    fn look<'n>(&self, named: Option<Named<'n>>) -> Result<(), Fault<'n>> {
        let Some(named) = named else {
            return Ok(());
        };
        let leads = self.leads_of(named)?;
        for file in self.files.as_slice() {
            if file.leads.is_one_with(&leads) {
                return Err(Fault {
                    name: named.name,
                    why: std::io::Error::other(file.role),
                });
            }
        }
        Ok(())
    }

    fn leads_of<'n>(&self, named: Named<'n>) -> Result<Leads, Fault<'n>> {
        match leads_of(self.rt, self.alloc, named.name) {
            Ok(leads) => Ok(leads),
            Err(why) => Err(Fault {
                name: named.name,
                why,
            }),
        }
    }
}
