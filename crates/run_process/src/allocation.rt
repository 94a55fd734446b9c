//! The allocation of a batch system in which `mpirun` was started: its hosts, and how many ranks it is for.

use crate::job_hosts::HostText;
use host_files::{grid_lines, slurm_lines, spaced_lines};
use numerals::number_between;
use std::alloc::Global;
use std::rt::{Env, Files};
use std::{env, fs};

/// The status of what is refused.
const REFUSED: u8 = 2;

/// The status where memory was wanting.
const FAILED: u8 = 3;

/// The nodes of an allocation of SLURM, the tasks of each, and how many they are together.
const NODES: &str = "SLURM_JOB_NODELIST";

const TASKS: &str = "SLURM_TASKS_PER_NODE";

const COUNT: &str = "SLURM_NTASKS";

/// The file of the hosts of PBS, one line for each slot; the hosts of LSF, the file of those of Grid Engine.
const PBS: &str = "PBS_NODEFILE";

const LSF: &str = "LSB_HOSTS";

const GRID: &str = "PE_HOSTFILE";

/// What starts a keeper on a node of SLURM, where its own launcher is there. It hands on the bytes of reports as they come.
pub const SRUN: &str = "srun --quiet --unbuffered --nodes=1 --ntasks=1 -w {host}";

/// That launcher.
const SRUN_PROGRAM: &str = "srun";

/// What the environment says under this name, unless that is nothing.
fn said<R: Env + AllocGlobal>(rt: &R, name: &str) -> Option<String> {
    match env::var(rt, name) {
        Ok(text) if !text.is_empty() => Some(text),
        _ => None,
    }
}

/// The text of hosts of this name.
fn told(name: &'static str, text: Vec<u8>) -> Option<HostText<'static>> {
    Some(HostText {
        name,
        text,
        is_list: false,
        is_of_batch: true,
        starts_by_srun: name == NODES,
    })
}

/// The nodes of an allocation of SLURM; tells where they can't be read.
fn slurm_hosts<R: Eprint + AllocGlobal>(
    rt: &R,
    nodes: &str,
    tasks: &str,
) -> Result<Option<HostText<'static>>, u8> {
    match slurm_lines(rt.alloc(), nodes.as_bytes(), tasks.as_bytes()) {
        Ok(Some(text)) => Ok(told(NODES, text)),
        Ok(None) => {
            let _ = eprintln!(rt;
                "mpirun: {NODES}='{nodes}' and {TASKS}='{tasks}' aren't nodes and their tasks; -host says where ranks are"
            );
            Err(REFUSED)
        }
        Err(_) => Err(FAILED),
    }
}

/// The file that the environment names so, as hosts; tells where it can't be read.
fn file_hosts<R: Env + Files + Eprint + AllocGlobal>(
    rt: &R,
    name: &'static str,
    file: &str,
) -> Result<Vec<u8>, u8> {
    match fs::read(rt, file) {
        Ok(text) => Ok(text),
        Err(error) => {
            let _ = eprintln!(rt; "mpirun: the file '{file}' of {name} can't be read: {error}");
            Err(REFUSED)
        }
    }
}

/// The hosts of the allocation in which this process was started, if it was started in one; tells where they can't be read.
pub fn hosts_of_batch<R: Env + Files + Eprint + AllocGlobal>(
    rt: &R,
) -> Result<Option<HostText<'static>>, u8> {
    let alloc: Global = rt.alloc();
    if let (Some(nodes), Some(tasks)) = (said(rt, NODES), said(rt, TASKS)) {
        return slurm_hosts(rt, nodes.as_str(), tasks.as_str());
    }
    if let Some(file) = said(rt, PBS) {
        return Ok(told(PBS, file_hosts(rt, PBS, file.as_str())?));
    }
    if let Some(hosts) = said(rt, LSF) {
        return match spaced_lines(alloc, hosts.as_bytes()) {
            Ok(text) => Ok(told(LSF, text)),
            Err(_) => Err(FAILED),
        };
    }
    if let Some(file) = said(rt, GRID) {
        let file = file_hosts(rt, GRID, file.as_str())?;
        return match grid_lines(alloc, &file) {
            Ok(text) => Ok(told(GRID, text)),
            Err(_) => Err(FAILED),
        };
    }
    Ok(None)
}

/// How many ranks an allocation is for, where it says so; at most so many.
pub fn count_of_batch<R: Env + AllocGlobal>(rt: &R, most: u16) -> Option<u16> {
    let text = said(rt, COUNT)?;
    let number = number_between(text.as_bytes(), 1, u64::from(most))?;
    u16::try_from(number).ok()
}

/// Whether SLURM's own launcher is in `PATH`.
pub fn has_srun<R: Env + Files + AllocGlobal>(rt: &R) -> bool {
    let Some(path) = said(rt, "PATH") else {
        return false;
    };
    for folder in path.as_str().split(':') {
        if let Ok(file) = format!(in rt.alloc(); "{folder}/{SRUN_PROGRAM}") {
            if fs::metadata(rt, file.as_str()).is_ok() {
                return true;
            }
        }
    }
    false
}
