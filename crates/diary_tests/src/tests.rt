//! Chains, places of bills, judgements and plans, and families of diaries. The tables are texts of rows.
mod conjuncts;
mod entries;
mod families;
mod judgements;
mod making;
mod meetings;
mod names;
mod places;
mod plans;
mod real_texts;
mod refusals;
mod steps;
mod surveys;
mod texts;
