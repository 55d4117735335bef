mod modules;
mod rows;
