mod modules;
mod pairs;
