mod books;
mod builders;
mod orders;
mod refusals;
