// The library as C sees it: each function that C calls, with the contract of the function that it calls. Nothing is decided here. include/jenwyllt.h declares
// them under the same names.

#![tactic(auto)]

mod accession_exports;
mod elevations_exports;
mod game_solver_exports;
mod partition_and_sheet_exports;
mod pool_exports;
mod report_figures_exports;
mod report_reading_exports;
mod report_sheets_exports;
mod result_reader_exports;
mod result_writer_exports;
mod separation_list_exports;
mod sheet_converter_exports;
mod sheet_writer_exports;
mod topology_exports;
