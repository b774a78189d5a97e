// Runs every case of document 01, "Sets on each side of a line", starred or not, and those of request 6, through the four entries, and
// prints each call with its whole answer.
#![tactic(auto)]

mod defaults;
mod jobs;
mod named;
mod sets;
mod show;
mod task_x;
mod task_y;

use std::io;

fn main(rt: HostRuntime) -> io::Result<()> {
    of_task_x(&rt)?;
    of_task_y(&rt)?;
    of_jobs(&rt)?;
    of_defaults(&rt)
}

fn of_task_x(rt: &impl Print) -> io::Result<()> {
    task_x::length_and_volume(rt)?;
    task_x::layers_at_1_1(rt)?;
    task_x::demand_at_1_1(rt)?;
    task_x::first_and_last_tick(rt)?;
    task_x::dense_at_2_3(rt)?;
    task_x::full_speed(rt)?;
    task_x::two_at_3_4(rt)?;
    task_x::four_and_five_at_3_4(rt)?;
    task_x::calls_at_their_ends(rt)?;
    task_x::no_speed(rt)
}

fn of_task_y(rt: &impl Print) -> io::Result<()> {
    task_y::crossing(rt)?;
    task_y::room(rt)
}

fn of_jobs(rt: &impl Print) -> io::Result<()> {
    jobs::one_job(rt)?;
    jobs::no_length(rt)?;
    jobs::two_jobs(rt)?;
    jobs::no_task(rt)?;
    jobs::cycles(rt)?;
    jobs::dense_jobs(rt)
}

fn of_defaults(rt: &impl Print) -> io::Result<()> {
    defaults::task_x(rt)?;
    defaults::between_speeds(rt)?;
    defaults::length_and_deadline(rt)?;
    defaults::refusals_before(rt)?;
    defaults::not_reduced(rt)?;
    defaults::no_task(rt)
}
