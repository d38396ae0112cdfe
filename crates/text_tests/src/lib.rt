//! Tests of whole texts: the names of modules, edges and paths, and what modules are hardened to. What is refused, and how programs run,
//! are tables of text in `tests/`; `cases.rt` says how those here are written.
#![tactic(auto)]

#[cfg(test)]
mod accepted;
#[cfg(test)]
mod cases;
#[cfg(test)]
mod flows;
#[cfg(test)]
mod hardened;
#[cfg(test)]
mod laid;
#[cfg(test)]
mod modules;
#[cfg(test)]
mod parsed;
